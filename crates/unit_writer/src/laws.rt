// The parts as access units.
ghost use Rattle.std.specs.Prelude.{◌≡◌, ◌++◌, ◌∷◌, [], ℕ, Bool, true, false};
ghost use Rattle.spec_headers.specs.declared.heads.SeqHead.{SeqHead};
ghost use Rattle.spec_headers.specs.MessageReaders.{Delays};
ghost use Rattle.spec_decoder.specs.Macroblocks.{Slice as Read};
ghost use Rattle.spec_pictures.specs.Accesses.{Access, access_bytes, slice_nals};
ghost use Rattle.spec_coding.specs.Trials.{supplement_unit, filler_units};
ghost use Rattle.unit_writer.specs.Parts.{set_bytes, message_bytes, later_bytes, filler_bytes};

/// An access unit is its parameter sets where its picture is an IDR picture, its messages, which are its first unit
/// where it isn't one, the units of its slices, and its filler.
pub fn units_make_accesses()
    ensures idr { (s : SeqHead) (flags : Bool × Bool) (d : Delays) (n : ℕ) (a : Access Read)
        → a.step.idr ≡ true → a.before ≡ supplement_unit d ∷ [] → a.behind ≡ filler_units n
        → access_bytes s flags a ≡ set_bytes s flags true ++ (message_bytes false d ++ (later_bytes (slice_nals a.step a.slices) ++ filler_bytes n)) }
    ensures other { (s : SeqHead) (flags : Bool × Bool) (d : Delays) (n : ℕ) (a : Access Read)
        → a.step.idr ≡ false → a.before ≡ supplement_unit d ∷ [] → a.behind ≡ filler_units n
        → access_bytes s flags a ≡ message_bytes true d ++ (later_bytes (slice_nals a.step a.slices) ++ filler_bytes n) }
{}
