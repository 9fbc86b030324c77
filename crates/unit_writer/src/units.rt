// The units around those of the slices.
ghost use Rattle.std.specs.Prelude.{◌≡◌, ◌≤◌, ◌%◌, [], length, true};
ghost use Rattle.spec_bits.specs.Bits.{bits_of_bytes};
ghost use Rattle.spec_headers.specs.Allowed.{IsSeqHead};
ghost use Rattle.spec_headers.specs.MessageReaders.{AreDelays};
ghost use Rattle.bit_strings.specs.BitText.{Appends};
ghost use Rattle.unit_writer.specs.Parts.{set_bytes, message_bytes, filler_bytes};

use crate::payloads::{make_messages, put_picture_set, put_sequence, put_unit};
use bit_strings::{BitBuf, Full};
use nal_writer::filler;
use param_sets::SeqHead;

// Supplemental enhancement information, to which no unit refers (table 7-1).
const UNIT_SUPPLEMENT: u8 = 6;

const NO_REF_IDC: u8 = 0;

/// Appends the units that begin the access unit of an IDR picture: its sequence parameter set, and its picture
/// parameter set with the arithmetic coder, which says whether 8x8 transforms may be used (`t8x8`). Each has a start
/// code of four bytes.
///
/// `payload` is empty room for the payload of a unit, 8192 bits at least, and is given back empty.
///
/// `Full` comes exactly where both units don't fit the room of `out`, which is then unchanged.
pub fn write_parameter_sets(
    out: &mut BitBuf,
    payload: &mut BitBuf,
    head: &SeqHead,
    t8x8: bool,
) -> Result<(), Full>
    requires head { IsSeqHead head.now }
    requires whole { length out.old.text % 8 ≡ 0 }
    requires empty { payload.old.text ≡ [] }
    requires room { 8192 ≤ payload.old.room }
    ensures sets { Appends out.old out.new (bits_of_bytes (set_bytes head.now (true, t8x8) true)) result }
    ensures payload { payload.new ≡ payload.old }
    ensures whole { length out.new.text % 8 ≡ 0 }
{
    let start = out.len();
    if put_sequence(out, payload, head).is_err() {
        return Err(Full);
    }
    if put_picture_set(out, payload, t8x8).is_err() {
        out.cut(start);
        return Err(Full);
    }
    Ok(())
}

/// Appends the unit of a picture's messages: of the buffering period that begins with it, where `initial` is its
/// initial removal delay in 90000ths of a second, and of its timing, with both delays in clock ticks (clauses D.2.2
/// and D.2.3). Its start code has four bytes where it is `long`, as the first unit of an access unit has it.
///
/// `payload` is empty room for the unit's payload, 8192 bits at least, and is given back empty.
///
/// `Full` comes exactly where the unit doesn't fit the room of `out`, which is then unchanged.
pub fn write_messages(
    out: &mut BitBuf,
    payload: &mut BitBuf,
    initial: Option<u32>,
    removal: u32,
    output: u32,
    long: bool,
) -> Result<(), Full>
    requires delays { AreDelays (record { initial = initial; removal = removal; output = output }) }
    requires whole { length out.old.text % 8 ≡ 0 }
    requires empty { payload.old.text ≡ [] }
    requires room { 8192 ≤ payload.old.room }
    ensures messages { Appends out.old out.new (bits_of_bytes (message_bytes long (record { initial = initial; removal = removal; output = output }))) result }
    ensures payload { payload.new ≡ payload.old }
    ensures whole { length out.new.text % 8 ≡ 0 }
{
    make_messages(payload, initial, removal, output);
    put_unit(out, payload, NO_REF_IDC, UNIT_SUPPLEMENT, long)
}

/// Appends a unit of this many bytes of filler behind the other units of an access unit, nothing for 0. A unit of
/// filler has five bytes at least.
///
/// `Full` comes exactly where the unit doesn't fit the room of `out`, which is then unchanged.
pub fn write_filler(out: &mut BitBuf, bytes: u32) -> Result<(), Full>
    requires whole { length out.old.text % 8 ≡ 0 }
    ensures filler { Appends out.old out.new (bits_of_bytes (filler_bytes bytes)) result }
    ensures whole { length out.new.text % 8 ≡ 0 }
{
    // Its contract says that what is held fits the room.
    let _held = out.len();
    if bytes == 0 {
        return Ok(());
    }
    filler(out, bytes.max(5))
}
