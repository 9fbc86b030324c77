//! Laws on macroblocks that the encoder codes: their records are records of the syntax, and what is built of them are
//! samples of eight bits again.
#![tactic(auto)]

ghost use Rattle.std.specs.Prelude.{ℕ, ℤ, ◌+◌, ◌*◌, Bool, List};
ghost use Rattle.enc_tables.specs.declared.records.MbKind.{MbKind};
ghost use Rattle.enc_tables.specs.declared.records.MbPlan.{MbPlan};
ghost use Rattle.enc_tables.specs.declared.records.MbRecord.{MbRecord};
ghost use Rattle.enc_tables.specs.declared.records.SliceKind.TheVariants.{I};
ghost use Rattle.enc_tables.specs.Choice.{choice};
ghost use Rattle.spec_film.specs.Films.{Planes};
ghost use Rattle.spec_intra.specs.Near.{macroblock_avail};
ghost use Rattle.spec_partitions.specs.Near.{Near, View};
ghost use Rattle.spec_macroblock.specs.Records.{IsRecord};
ghost use Rattle.spec_partitions.specs.Records.{HasMotion};
ghost use Rattle.spec_reconstruction.specs.declared.Site.{Site};
ghost use Rattle.spec_reconstruction.specs.Inter.{Sources};
ghost use Rattle.spec_reconstruction.specs.Records.{macroblock_built, slice_built};
ghost use Rattle.spec_reconstruction.specs.Slices.{coded_record};
ghost use Rattle.spec_choice.specs.IntraPlans.{intra_plan};
ghost use Rattle.spec_filter.specs.Pictures.{picture_filtered};
ghost use Rattle.spec_record_laws.specs.Coded.{PlanesFit, ModesFit, ModesAllowed, IsCodedKind, Stands};

/// The record of a coded intra macroblock is one that the syntax can give in a slice of any type, whatever the samples
/// of the source and of the planes that were built are; and it has the motion that a decoder derives, which is none.
pub fn records_are_coded()
    ensures written { (near : Near) (width : ℕ) (site : Site) (kind : MbKind) (plan : MbPlan) (source p : Planes) → Stands near site → IsCodedKind near.t8x8 kind → ModesFit plan → PlanesFit source → PlanesFit p → IsRecord near (coded_record width site kind plan source p) }
    ensures motion { (view : View) (width : ℕ) (site : Site) (kind : MbKind) (plan : MbPlan) (source p : Planes) → HasMotion view (coded_record width site kind plan source p) }
{}

/// What is built of a macroblock's record over samples of eight bits has samples of eight bits, whatever its levels,
/// its motion and the pictures that it refers to are; so has what is built of a slice.
pub fn built_samples_fit()
    ensures macroblock { (width : ℕ) (s : Sources) (first address : ℕ) (r : MbRecord) (p : Planes) → PlanesFit p → PlanesFit (macroblock_built width s first address r p) }
    ensures slice { (width : ℕ) (s : Sources) (first : ℕ) (records : List MbRecord) (p : Planes) → PlanesFit p → PlanesFit (slice_built width s first records p) }
{}

/// The deblocking filter keeps samples of eight bits, whatever the records of the picture's macroblocks are.
pub fn filtered_samples_fit()
    ensures { (pictures0 pictures1 : List ℤ) (records : List MbRecord) (width : ℕ) (p : Planes) → PlanesFit p → PlanesFit (picture_filtered pictures0 pictures1 records width p) }
{}

/// The plan of a macroblock has modes in their ranges, none of which needs samples that aren't available (ITU-T H.264,
/// clauses 8.3.1.2, 8.3.2.2, 8.3.3 and 8.3.4); and the kind that is chosen by a plan is one that is coded.
pub fn plans_fit()
    ensures modes { (width first_row : ℕ) (t8x8 : Bool) (source : Planes) (row column : ℕ) → ModesFit (intra_plan width first_row t8x8 source row column) }
    ensures allowed { (width first_row : ℕ) (t8x8 : Bool) (source : Planes) (row column : ℕ) → PlanesFit source → ModesAllowed t8x8 (macroblock_avail width (first_row * width) (row * width + column)) (intra_plan width first_row t8x8 source row column) }
    ensures kind { (t8x8 : Bool) (plan : MbPlan) (qp : ℕ) → IsCodedKind t8x8 (choice I plan qp t8x8).0 }
{}
