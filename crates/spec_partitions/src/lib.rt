//! What macroblocks of P and B slices say of their partitions, and the motion that follows from it, as definitions: the
//! macroblocks around, the reader and the bins of reference indices and vector differences, and the laws on them (ITU-T
//! H.264, clauses 7.3.5.1, 7.3.5.2 and 8.4.1).
#![tactic(auto)]

ghost use Rattle.std.specs.Prelude.{◌≡◌, ℕ, ◌<◌, ◌≤◌, ◌+◌, Bool, true, is_some, List, length, Option, Some, ℤ};
ghost use Rattle.enc_tables.specs.declared.records.MbRecord.{MbRecord};
ghost use Rattle.enc_tables.specs.declared.records.Motion.{Motion};
ghost use Rattle.enc_tables.specs.declared.records.Vector.{Vector};
ghost use Rattle.enc_tables.specs.declared.records.SliceKind.{SliceKind};
ghost use Rattle.enc_tables.specs.Kinds.{has_motion};
ghost use Rattle.spec_intra.specs.Near.{macroblock_avail};
ghost use Rattle.spec_motion.specs.declared.Field.{Field};
ghost use Rattle.spec_motion.specs.Prediction.{predicted};
ghost use Rattle.spec_motion.specs.Skip.{skip_vector};
ghost use Rattle.spec_motion.specs.Direct.{direct_vector};
ghost use Rattle.spec_syntax.specs.Syntax.{Reads};
ghost use Rattle.spec_slice_data.specs.Coding.{GoesOn};
ghost use Rattle.spec_partitions.specs.Near.{Near, View, SliceFacts, near_in, view_in};
ghost use Rattle.spec_partitions.specs.Partitions.{shape_of, part_count, written_of};
ghost use Rattle.spec_partitions.specs.Derived.{given, given_mvd, IsVector};
ghost use Rattle.spec_partitions.specs.Inter.{inter, inter_string, sub_types_string, uses_of};
ghost use Rattle.spec_partitions.specs.Records.{is_in, WritesParts, HasMotion};
ghost use Rattle.spec_partitions.specs.InRange.{AllFit, ViewFits, HasEntries};
ghost use Rattle.spec_partitions.specs.Small.{Small, FieldSmall, AllSmall, ViewSmall};

/// A macroblock has those macroblocks around it that are available by their numbers, in the same slice and earlier
/// (clause 6.4.8): A at its left, B above it, C above at the right and D above at the left.
pub fn neighbours_are_available()
    ensures left { (s : SliceFacts) (before : List MbRecord) → is_some (near_in s before).left ≡ (macroblock_avail s.width s.first (s.first + length before)).left }
    ensures above { (s : SliceFacts) (before : List MbRecord) → is_some (near_in s before).above ≡ (macroblock_avail s.width s.first (s.first + length before)).above }
    ensures above_right { (s : SliceFacts) (c : ℕ → List (Option Motion)) (before : List MbRecord) → is_some (view_in s c before).above_right ≡ (macroblock_avail s.width s.first (s.first + length before)).above_right }
    ensures above_left { (s : SliceFacts) (c : ℕ → List (Option Motion)) (before : List MbRecord) → is_some (view_in s c before).above_left ≡ (macroblock_avail s.width s.first (s.first + length before)).corner }
{}

/// The reference indices and vector differences of every macroblock of partitions are read back from their bins, and
/// none of these bins ends the arithmetic code.
pub fn partitions_are_read_back()
    ensures written { (near : Near) (mb : MbRecord) → has_motion mb.kind ≡ true → WritesParts near mb → Reads (inter near mb.kind (uses_of mb)) (inter_string near mb) (written_of mb) }
    ensures goes_on { (near : Near) (mb : MbRecord) → GoesOn (inter_string near mb) }
    ensures sub_types_go_on { (kind : SliceKind) (mb : MbRecord) → GoesOn (sub_types_string kind mb) }
{}

/// A macroblock in which the vector of each partition is its prediction, from the blocks around and the partitions
/// before it, and its written difference, has the motion that a decoder derives (clause 8.4.1).
pub fn coded_motion_is_derived()
    ensures { (view : View) (mb : MbRecord) (r0 : ℕ → ℤ) (r1 : ℕ → ℤ) (v0 : ℕ → Vector) (v1 : ℕ → Vector) (d0 : ℕ → Vector) (d1 : ℕ → Vector)
        → has_motion mb.kind ≡ true → mb.motion ≡ given (shape_of mb.kind) r0 r1 v0 v1 → mb.mvd ≡ given_mvd (shape_of mb.kind) d0 d1
        → ((part : ℕ) → part < part_count (shape_of mb.kind) → IsVector view (shape_of mb.kind) mb.motion 0 part (r0 part) (v0 part) (d0 part))
        → ((part : ℕ) → part < part_count (shape_of mb.kind) → IsVector view (shape_of mb.kind) mb.motion 1 part (r1 part) (v1 part) (d1 part))
        → HasMotion view mb }
{}

/// Where the references of the macroblocks around are below the lengths of the lists, so are those of the macroblock,
/// also where it is skipped or direct.
pub fn references_stay_in_range()
    ensures { (view : View) (mb : MbRecord) → is_in view.near.kind mb.kind ≡ true → WritesParts view.near mb → HasMotion view mb → ViewFits view
        → HasEntries view.near.kind view.near.refs0 view.near.refs1 → AllFit view.near.refs0 view.near.refs1 mb.motion }
{}

/// Predicted vectors are no longer than the vectors beside the partition; so only written vectors can be longer than
/// those of the macroblocks around.
pub fn predictions_stay_small()
    ensures predicted { (most : ℕ) (shape : ℕ) (part : ℕ) (list : ℕ) (r : ℤ) (f : Field) → FieldSmall most list f → Small most (predicted shape part list r f) }
    ensures skip { (most : ℕ) (f : Field) → FieldSmall most 0 f → Small most (skip_vector f) }
    ensures direct { (most : ℕ) (list : ℕ) (r : ℤ) (still : Bool) (f : Field) → FieldSmall most list f → Small most (direct_vector list r still f) }
    ensures macroblock { (most : ℕ) (view : View) (mb : MbRecord) → HasMotion view mb → ViewSmall most view → (has_motion mb.kind ≡ true → AllSmall most mb.motion) → AllSmall most mb.motion }
{}
