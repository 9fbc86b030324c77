//! Macroblocks of I, P and B slices, as definitions: the reader of a macroblock's syntax, the bins of a macroblock, and
//! the law that the bins are read back (ITU-T H.264, clause 7.3.5).
#![tactic(auto)]

ghost use Rattle.std.specs.Prelude.{◌≡◌, ℕ, Bool, List, [], ◌∷◌, ◌++◌};
ghost use Rattle.enc_tables.specs.declared.records.MbRecord.{MbRecord};
ghost use Rattle.spec_syntax.specs.Syntax.{Reads};
ghost use Rattle.spec_slice_data.specs.Coding.{GoesOn};
ghost use Rattle.spec_partitions.specs.Near.{Near, View, has_delta, last_qp, last_has_delta};
ghost use Rattle.spec_macroblock.specs.Macroblock.{macroblock};
ghost use Rattle.spec_macroblock.specs.Strings.{macroblock_string};
ghost use Rattle.spec_partitions.specs.Records.{HasMotion};
ghost use Rattle.spec_macroblock.specs.Records.{IsRecord};

/// The bins of every macroblock of an I, P or B slice that isn't I_PCM are read back by the macroblock's syntax as
/// exactly its record, whatever macroblocks are around it.
pub fn macroblocks_are_read_back()
    ensures { (view : View) (mb : MbRecord) → IsRecord view.near mb → HasMotion view mb → Reads (macroblock view) (macroblock_string view.near mb) mb }
{}

/// No bin of such a macroblock ends the arithmetic code, so that end_of_slice_flag can follow it.
pub fn macroblocks_go_on()
    ensures { (near : Near) (mb : MbRecord) → IsRecord near mb → GoesOn (macroblock_string near mb) }
{}

/// What a macroblock leaves to the next one of its slice: its QP, and whether it has an mb_qp_delta that isn't 0.
pub fn records_follow_each_other()
    ensures qp { (qp : ℕ) (before : List MbRecord) (mb : MbRecord) → last_qp qp (before ++ mb ∷ []) ≡ mb.qp }
    ensures delta { (given : Bool) (qp : ℕ) (before : List MbRecord) (mb : MbRecord) → last_has_delta given qp (before ++ mb ∷ []) ≡ has_delta (last_qp qp before) mb }
{}
