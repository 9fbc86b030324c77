// Payloads of fields, and their units.
ghost use Rattle.std.specs.Prelude.{◌≡◌, ◌≤◌, ◌%◌, [], length, true, IfSome};
ghost use Rattle.spec_bits.specs.Bits.{bits_of_bytes, bytes_of_bits};
ghost use Rattle.spec_bits.specs.Fields.{fields_bits};
ghost use Rattle.spec_bits.specs.Units.{unit_bytes, EndsWell, written};
ghost use Rattle.spec_headers.specs.Allowed.{IsSeqHead};
ghost use Rattle.spec_headers.specs.HeadFields.{sequence_fields, picture_fields};
ghost use Rattle.spec_headers.specs.MessageFields.{message_fields, period_fields};
ghost use Rattle.spec_headers.specs.MessageReaders.{AreDelays};
ghost use Rattle.spec_pictures.specs.Accesses.{sequence_nal, picture_nal};
ghost use Rattle.bit_strings.specs.BitText.{Appends};
ghost use Rattle.unit_writer.specs.Parts.{ended};

use bit_strings::{BitBuf, Full};
use enc_tables::{HIGHEST_REF_IDC, UNIT_PICTURE_SET, UNIT_SEQUENCE_SET};
use nal_writer::unit;
use param_sets::{SeqHead, write_buffering, write_pps, write_sps, write_timing};

/// Appends the unit of this payload, which is then emptied.
pub(crate) fn put_unit(
    out: &mut BitBuf,
    payload: &mut BitBuf,
    ref_idc: u8,
    kind: u8,
    long: bool,
) -> Result<(), Full>
    requires whole { length out.old.text % 8 ≡ 0 }
    requires ref_idc { ref_idc ≤ 3 }
    requires from { 1 ≤ kind }
    requires to { kind ≤ 31 }
    requires bytes { length payload.old.text % 8 ≡ 0 }
    requires ends { EndsWell (bytes_of_bits payload.old.text) }
    ensures unit { Appends out.old out.new (bits_of_bytes (unit_bytes long ref_idc kind (bytes_of_bits payload.old.text))) result }
    ensures payload { payload.new ≡ record payload.old { text = [] } }
{
    let done = unit(out, ref_idc, kind, payload.bytes(), long);
    payload.clear();
    done
}

fn make_sequence(payload: &mut BitBuf, head: &SeqHead)
    requires head { IsSeqHead head.now }
    requires empty { payload.old.text ≡ [] }
    requires room { 8192 ≤ payload.old.room }
    ensures { payload.new ≡ record payload.old { text = ended (sequence_fields head.now) } }
{
    // 8192 bits are room enough for a parameter set and its trailing bits.
    let _ = write_sps(payload, head);
    let _ = payload.trail();
}

fn make_picture_set(payload: &mut BitBuf, t8x8: bool)
    requires empty { payload.old.text ≡ [] }
    requires room { 8192 ≤ payload.old.room }
    ensures { payload.new ≡ record payload.old { text = ended (picture_fields true t8x8) } }
{
    let _ = write_pps(payload, true, t8x8);
    let _ = payload.trail();
}

// The message of a buffering period, where one begins.
fn make_buffering(payload: &mut BitBuf, initial: Option<u32>)
    requires initial { IfSome initial (λ delay. 1 ≤ delay) }
    requires empty { payload.old.text ≡ [] }
    requires room { 8192 ≤ payload.old.room }
    ensures { payload.new ≡ record payload.old { text = fields_bits (period_fields initial) } }
{
    match initial {
        None => {}
        Some(delay) => {
            let _ = write_buffering(payload, delay);
        }
    }
}

/// The payload of a picture's messages.
pub(crate) fn make_messages(payload: &mut BitBuf, initial: Option<u32>, removal: u32, output: u32)
    requires delays { AreDelays (record { initial = initial; removal = removal; output = output }) }
    requires empty { payload.old.text ≡ [] }
    requires room { 8192 ≤ payload.old.room }
    ensures { payload.new ≡ record payload.old { text = ended (message_fields initial removal output) } }
{
    make_buffering(payload, initial);
    let _ = write_timing(payload, removal, output);
    let _ = payload.trail();
}

/// Appends the unit of a sequence parameter set.
pub(crate) fn put_sequence(
    out: &mut BitBuf,
    payload: &mut BitBuf,
    head: &SeqHead,
) -> Result<(), Full>
    requires head { IsSeqHead head.now }
    requires whole { length out.old.text % 8 ≡ 0 }
    requires empty { payload.old.text ≡ [] }
    requires room { 8192 ≤ payload.old.room }
    ensures unit { Appends out.old out.new (bits_of_bytes (written (true, sequence_nal head.now))) result }
    ensures payload { payload.new ≡ payload.old }
{
    make_sequence(payload, head);
    put_unit(out, payload, HIGHEST_REF_IDC, UNIT_SEQUENCE_SET, true)
}

/// Appends the unit of a picture parameter set with the arithmetic coder.
pub(crate) fn put_picture_set(
    out: &mut BitBuf,
    payload: &mut BitBuf,
    t8x8: bool,
) -> Result<(), Full>
    requires whole { length out.old.text % 8 ≡ 0 }
    requires empty { payload.old.text ≡ [] }
    requires room { 8192 ≤ payload.old.room }
    ensures unit { Appends out.old out.new (bits_of_bytes (written (true, picture_nal (true, t8x8)))) result }
    ensures payload { payload.new ≡ payload.old }
{
    make_picture_set(payload, t8x8);
    put_unit(out, payload, HIGHEST_REF_IDC, UNIT_PICTURE_SET, true)
}
