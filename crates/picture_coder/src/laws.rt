// Units of pictures as parts of access units.
ghost use Rattle.std.specs.Prelude.{◌≡◌, ◌%◌, ℕ, false, List, map};
ghost use Rattle.std.specs.List.{flat_map};
ghost use Rattle.enc_tables.specs.declared.records.PlanStep.{PlanStep};
ghost use Rattle.spec_bits.specs.Units.{written};
ghost use Rattle.spec_decoder.specs.Macroblocks.{Slice as Read};
ghost use Rattle.spec_film.specs.Films.{Planes};
ghost use Rattle.spec_lists.specs.References.{Reference};
ghost use Rattle.spec_pictures.specs.Coded.{CodedSlice};
ghost use Rattle.spec_pictures.specs.Accesses.{slice_nals, is_set};
ghost use Rattle.spec_film_coder.specs.Pictures.{Shape, plain_picture, coarsest_picture};
ghost use Rattle.picture_coder.specs.Units.{units_of};

/// The units of a picture's slices behind others of its access unit.
pub fn picture_units_make_accesses()
    ensures { (st : PlanStep) (cs : List (CodedSlice Read)) → flat_map written (map (λ m. (is_set m, m)) (slice_nals st cs)) ≡ units_of false st cs }
{}

/// Of the number of IDR pictures before a picture only the parity counts.
pub fn pictures_count_in_turns()
    ensures plain { (s : Shape) (held : List Reference) (st : PlanStep) (number qp : ℕ) (source : Planes) → plain_picture s held st (number % 2) qp source ≡ plain_picture s held st number qp source }
    ensures coarsest { (s : Shape) (held : List Reference) (st : PlanStep) (number : ℕ) (source : Planes) → coarsest_picture s held st (number % 2) source ≡ coarsest_picture s held st number source }
{}
