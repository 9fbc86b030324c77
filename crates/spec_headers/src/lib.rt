//! Heads and messages as the syntax tables of ITU-T H.264 have them: the types of what they say, their fields, their
//! readers, and the laws that what is written is read.
#![tactic(auto)]

ghost use Rattle.std.specs.Prelude.{◌≡◌, ℕ, ◌-◌, ◌^◌, ◌<◌, ◌≤◌, Bool, Option, true};
ghost use Rattle.enc_tables.specs.declared.SliceKind.TheVariants.{P, B};
ghost use Rattle.spec_headers.specs.declared.heads.SeqHead.{SeqHead};
ghost use Rattle.spec_headers.specs.declared.heads.SliceHead.{SliceHead};
ghost use Rattle.spec_headers.specs.Allowed.{IsSeqHead, IsStreamHead};
ghost use Rattle.spec_headers.specs.MessageFields.{message_fields};
ghost use Rattle.spec_bits.specs.Units.{filler_payload};
ghost use Rattle.spec_bits.specs.Fields.{fields_bits};
ghost use Rattle.spec_headers.specs.HeadFields.{sequence_fields, picture_fields, slice_fields};
ghost use Rattle.spec_reading.specs.Reader.{Reads};
ghost use Rattle.spec_headers.specs.HeadReaders.{sequence, picture, idr_slice, other_slice, slice_head};
ghost use Rattle.spec_headers.specs.Heads.{idr_head, other_head, OtherFits};
ghost use Rattle.spec_headers.specs.MessageReaders.{Delays, delays, AreDelays, is_filler};

mod heads;

pub use heads::{SeqHead, SliceHead, Timing};

/// Parameter sets, with usability information and without, and headers of slices of IDR pictures, are read back from
/// their fields, whatever follows.
pub fn heads_are_read_back()
    ensures sequence_set { (h : SeqHead) → IsSeqHead h → h.level < 256 → Reads sequence (fields_bits (sequence_fields h)) h }
    ensures picture_set { (entropy : Bool) (transform8 : Bool) → Reads picture (fields_bits (picture_fields entropy transform8)) (entropy, transform8) }
    ensures slice { (first_mb : ℕ) (frame_num : ℕ) (idr_id : ℕ) (poc : ℕ) (qp : ℕ) (cabac : Bool) → first_mb < 2 ^ 32 - 1 → frame_num < 2 ^ 16 → idr_id ≤ 1 → poc < 2 ^ 16 → qp ≤ 51 → Reads (idr_slice cabac) (fields_bits (slice_fields (idr_head first_mb frame_num idr_id poc qp cabac))) (idr_head first_mb frame_num idr_id poc qp cabac) }
{}

/// Headers of slices of P and B pictures, with the one command that changes list 0 or without it, are read back from
/// their fields, whatever follows.
pub fn inter_heads_are_read_back()
    ensures p { (first_mb : ℕ) (frame_num : ℕ) (poc : ℕ) (refs0 : ℕ) (moved : Option ℕ) (qp : ℕ) (cabac : Bool) → OtherFits first_mb frame_num poc refs0 moved qp → Reads (other_slice cabac) (fields_bits (slice_fields (other_head first_mb P frame_num poc refs0 0 moved qp cabac))) (other_head first_mb P frame_num poc refs0 0 moved qp cabac) }
    ensures b { (first_mb : ℕ) (frame_num : ℕ) (poc : ℕ) (refs0 : ℕ) (refs1 : ℕ) (moved : Option ℕ) (qp : ℕ) (cabac : Bool) → OtherFits first_mb frame_num poc refs0 moved qp → 1 ≤ refs1 → refs1 ≤ 4 → Reads (other_slice cabac) (fields_bits (slice_fields (other_head first_mb B frame_num poc refs0 refs1 moved qp cabac))) (other_head first_mb B frame_num poc refs0 refs1 moved qp cabac) }
{}

/// The header of every slice of a stream is read back from its fields, whatever follows, by its unit's type and
/// entropy_coding_mode_flag.
#[tactic(auto, using(crate::proofs::AllHeads::reads_slice_head))]
pub fn slice_heads_are_read_back()
    ensures { (h : SliceHead) → IsStreamHead h → Reads (slice_head h.idr h.cabac) (fields_bits (slice_fields h)) h }
{}

/// The messages of a picture are read back from their fields, and filler data is told from other bytes.
pub fn messages_are_read_back()
    ensures messages { (d : Delays) → AreDelays d → Reads delays (fields_bits (message_fields d.initial d.removal d.output)) d }
    ensures filler { (n : ℕ) → is_filler (filler_payload n) ≡ true }
{}
