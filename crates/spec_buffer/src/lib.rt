//! The coded picture buffer of a receiver at a constant rate, and the ledger of an encoder that keeps it, as
//! definitions in whole numbers (ITU-T H.264, Annex C), with the laws that join them.
#![tactic(auto)]

ghost use Rattle.std.specs.Prelude.{ℕ, List, ◌≡◌, ◌≤◌, ◌+◌, ◌*◌};
ghost use Rattle.spec_buffer.specs.Buffer.{Rate, scale, arrived, share_of, BufferHolds, IsRate};
ghost use Rattle.spec_buffer.specs.Ledger.{Ledger, fresh, Keeps, available, filler_bytes, IsLeastFiller, spent, Spends, sizes_of, base_after, start_qp};

use enc_tables::SliceKind;

/// The buffer neither underflows nor overflows where each unit has at most the bits that are there, and the filler that
/// the ledger asks for.
pub fn ledgers_keep_the_buffer()
    ensures { (t : Rate) (qp : ℕ) (units : List (ℕ × ℕ)) → IsRate t → Spends t (fresh qp) units → BufferHolds t (sizes_of units) }
{}

/// So it goes unit by unit: what holds between two units holds at the start, and behind each unit that the ledger
/// allows.
pub fn units_keep_the_ledger()
    ensures start { (t : Rate) (qp : ℕ) → IsRate t → Keeps t (fresh qp) }
    ensures step { (t : Rate) (l : Ledger) (bits : ℕ) → IsRate t → Keeps t l → bits ≤ available t l → Keeps t (spent t l bits (filler_bytes t l bits)) }
{}

/// The bits that are available are those that have come and weren't spent, and no more than the buffer holds.
pub fn available_is_there()
    ensures fits { (t : Rate) (l : Ledger) (bits : ℕ) → Keeps t l → bits ≤ available t l → scale t * (l.bits + bits) ≤ arrived t l.units }
    ensures whole { (t : Rate) (l : Ledger) (bits : ℕ) → 1 ≤ t.num → scale t * (l.bits + bits) ≤ arrived t l.units → bits ≤ available t l }
    ensures buffer { (t : Rate) (l : Ledger) → 1 ≤ t.num → Keeps t l → available t l ≤ t.cpb }
{}

/// The filler that the ledger asks for is the least that keeps the buffer from being over its size: none, or a unit of
/// 5 bytes or more. There is always room for it.
pub fn fillers_are_least()
    ensures fits { (t : Rate) (l : Ledger) (bits : ℕ) → IsRate t → Keeps t l → bits ≤ available t l → bits + 8 * filler_bytes t l bits ≤ available t l }
    ensures least { (t : Rate) (l : Ledger) (bits : ℕ) → 1 ≤ t.num → IsLeastFiller t l bits (filler_bytes t l bits) }
{}

/// Behind each unit that the ledger allows, a unit of at most a picture's share is allowed.
pub fn share_is_there()
    ensures { (t : Rate) (l : Ledger) (bits : ℕ) (next : ℕ) → IsRate t → Keeps t l → bits ≤ available t l → scale t * next ≤ share_of t → next ≤ available t (spent t l bits (filler_bytes t l bits)) }
{}

/// Quantisation parameters are at most 51.
pub fn parameters_fit()
    ensures base { (t : Rate) (qp : ℕ) (bits : ℕ) → qp ≤ 51 → base_after t qp bits ≤ 51 }
    ensures start { (kind : SliceKind) (base : ℕ) → start_qp kind base ≤ 51 }
{}
