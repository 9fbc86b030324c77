// What is around a macroblock behind others of its slice.
ghost use Rattle.std.specs.Prelude.{◌≡◌, ◌≤◌, ◌<◌, ◌+◌, ◌-◌, ◌%◌, ◌==◌, ◌||◌, ℕ, List, Option, false, length, get_or, None, Some, if◌then◌else◌, nat_lt};
ghost use Rattle.enc_tables.specs.declared.records.MbRecord.{MbRecord};
ghost use Rattle.enc_tables.specs.declared.records.Motion.{Motion};
ghost use Rattle.enc_tables.specs.Records.{no_record};
ghost use Rattle.spec_contexts.specs.Near.{pointed};
ghost use Rattle.spec_partitions.specs.Near.{SliceFacts, back, view_in};
ghost use Rattle.mb_syntax.specs.Around.{near_of};
ghost use Rattle.inter_coder.specs.Given.{IsBeside};
ghost use Rattle.slice_coder.specs.Strings.{near_at, Follows};

use crate::place::Place;
use enc_tables::MbRecord;
use inter_coder::Beside;
use mb_syntax::Around;
use spec_headers::SliceHead;

// The macroblock at the left of the next one of a slice that begins with macroblock `first`, where `across` stand in
// a row.
fn left_of<'a>(before: &'a [MbRecord], across: u32, first: u32) -> Option<&'a MbRecord>
    requires across { 0 < across }
    requires first { first < 65536 }
    requires few { length before.now < 65536 }
    ensures { pointed result ≡ (if length before.now == 0 || (first + length before.now) % across == 0 then None else Some (get_or before.now (length before.now - 1) no_record)) }
{
    let n = before.len();
    if n == 0 || (first + n as u32) % across == 0 {
        return None;
    }
    Some(&before[n - 1])
}

// The macroblock above the next one.
fn above_of<'a>(before: &'a [MbRecord], across: u32) -> Option<&'a MbRecord>
    requires { 0 < across }
    ensures { pointed result ≡ (if nat_lt (length before.now) across then None else Some (get_or before.now (length before.now - across) no_record)) }
{
    let n = before.len();
    if n < across as usize {
        return None;
    }
    Some(&before[n - across as usize])
}

// The macroblock so many before the next one, where no edge of the picture is between.
fn back<'a>(before: &'a [MbRecord], n: u32, edge: bool) -> Option<&'a MbRecord>
    requires { edge ≡ false → 0 < n }
    ensures { pointed result ≡ back before.now n edge }
{
    let count = before.len();
    if edge || count < n as usize {
        return None;
    }
    Some(&before[count - n as usize])
}

/// The macroblocks around the next one of a slice that begins with macroblock `first`, where `across` stand in a row.
pub fn beside_of<'a>(before: &'a [MbRecord], across: u32, first: u32) -> Beside<'a>
    requires across { (0 < across) × (across ≤ 256) }
    requires first { first < 65536 }
    requires few { length before.now < 65536 }
    ensures { (s : SliceFacts) (colocated : ℕ → List (Option Motion)) → s.width ≡ across → s.first ≡ first → IsBeside (view_in s colocated before.now) result }
{
    let next = first + before.len() as u32;
    Beside {
        left: left_of(before, across, first),
        above: above_of(before, across),
        above_right: back(before, across - 1, (next + 1) % across == 0),
        above_left: back(before, across + 1, next % across == 0),
    }
}

pub fn around_of<'a>(before: &'a [MbRecord], head: &SliceHead, place: &Place) -> Around<'a>
    requires across { 0 < place.now.across }
    requires first { head.now.first_mb < 65536 }
    requires few { length before.now < 65536 }
    ensures { (mb : MbRecord) → Follows head.now before.now mb → near_of result mb ≡ near_at place.now head.now before.now }
{
    Around {
        left: left_of(before, place.across, head.first_mb),
        above: above_of(before, place.across),
        last_delta: false,
        kind: head.kind,
        refs0: head.refs0,
        refs1: head.refs1,
        t8x8: place.t8x8,
    }
}
