//! The law that the coarsest coding of a slice is short, so that a payload's room can be made before any picture is
//! seen.
#![tactic(auto)]

ghost use Rattle.std.specs.Prelude.{◌≡◌, ◌≤◌, ◌+◌, ◌*◌, ℕ, ◌++◌, length};
ghost use Rattle.spec_bits.specs.Golomb.{align_bits};
ghost use Rattle.spec_film.specs.Films.{Planes};
ghost use Rattle.spec_headers.specs.declared.SliceHead.{SliceHead};
ghost use Rattle.spec_slice_payload.specs.Layer.{Format, Slice, facts_of};
ghost use Rattle.spec_slice_payload.specs.Writing.{layer_bits};
ghost use Rattle.spec_coded.specs.Tasks.{Task};
ghost use Rattle.spec_coded.specs.Coarsest.{coarsest_records};

/// The coarsest coding of a slice of n macroblocks, at the greatest QP, has at most 128 * n + 1024 bits, header and
/// alignment counted; so has its payload, with zeros to the byte. This holds whatever the header's other numbers, the
/// samples, the lists and the co-located motion are.
pub fn coarsest_slices_are_short()
    ensures bits { (f : Format) (h : SliceHead) (t : Task) (before : Planes) (n : ℕ) → h.qp ≡ 51 → t.facts ≡ facts_of f h
        → length (layer_bits f (record { head = h; records = coarsest_records t before n })) ≤ 128 * n + 1024 }
    ensures padded { (f : Format) (h : SliceHead) (t : Task) (before : Planes) (n : ℕ) → h.qp ≡ 51 → t.facts ≡ facts_of f h
        → (let bits = layer_bits f (record { head = h; records = coarsest_records t before n }) in length (bits ++ align_bits (length bits))) ≤ 128 * n + 1024 }
{}
