// The access unit that stores a picture.
ghost use Rattle.std.specs.Prelude.{◌≡◌, ◌≤◌, ◌+◌, ◌*◌, ◌/◌, ◌%◌, ◌++◌, [], false, true, length};
ghost use Rattle.spec_bits.specs.Bits.{bits_of_bytes, bytes_of_bits};
ghost use Rattle.spec_headers.specs.HeadFields.{sequence_payload, picture_payload};
ghost use Rattle.spec_bits.specs.Units.{EndsWell, unit_bytes};
ghost use Rattle.spec_film.specs.Films.{AllowedHead};
ghost use Rattle.spec_film.specs.Padding.{padded_size};
ghost use Rattle.spec_stream.specs.Pictures.{IsPicture};
ghost use Rattle.spec_stream.specs.Stored.{stored_picture, stored_sequence, stored_slice_bits, mbs_across, mbs_down};
ghost use Rattle.picture_planes.specs.Pictures.{planes_of};
ghost use Rattle.stored_picture.specs.Rooms.{payload_most, units_most};

use crate::slice::write_pcm_slice;
use bit_strings::BitBuf;
use enc_tables::{HIGHEST_REF_IDC, UNIT_IDR_SLICE, UNIT_PICTURE_SET, UNIT_SEQUENCE_SET};
use nal_writer::unit;
use param_sets::{SeqHead, write_pps, write_sps};
use picture_planes::Picture;
use spec_film::FilmHead;

/// How many bytes the payload of a unit has at most, without the bytes 03: the room that the payload's buffer needs.
pub fn payload_bytes(head: &FilmHead) -> u32
    requires { AllowedHead head.now }
    ensures { result ≡ payload_most head.now }
{
    512 + 387 * ((head.width + 15) / 16 * ((head.height + 15) / 16))
}

/// How many bytes the access unit of a picture has at most: the room that its buffer needs.
pub fn units_bytes(head: &FilmHead) -> u32
    requires { AllowedHead head.now }
    ensures { result ≡ units_most head.now }
{
    let payload = payload_bytes(head);
    4096 + payload + payload / 2
}

// Appends the unit with this payload, where the room is known.
fn append_unit(out: &mut BitBuf, kind: u8, payload: &[u8], long_start: bool)
    requires whole { length out.old.text % 8 ≡ 0 }
    requires from { 1 ≤ kind }
    requires to { kind ≤ 31 }
    requires ends { EndsWell payload.now }
    requires room { length out.old.text + 8 * (5 + length payload.now + length payload.now / 2) ≤ out.old.room }
    ensures text { out.new ≡ record out.old { text = out.old.text ++ bits_of_bytes (unit_bytes long_start 3 kind payload.now) } }
    ensures whole { length out.new.text % 8 ≡ 0 }
    ensures length { length out.new.text ≤ length out.old.text + 8 * (5 + length payload.now + length payload.now / 2) }
{
    // There is room, by `room`.
    let _ = unit(out, HIGHEST_REF_IDC, kind, payload, long_start);
}

fn append_sequence(units: &mut BitBuf, payload: &mut BitBuf, head: &FilmHead)
    requires head { AllowedHead head.now }
    requires whole { length units.old.text % 8 ≡ 0 }
    requires payload { 4096 ≤ payload.old.room }
    requires room { length units.old.text + 8 * 800 ≤ units.old.room }
    ensures text { units.new ≡ record units.old { text = units.old.text ++ bits_of_bytes (unit_bytes true 3 7 (sequence_payload (stored_sequence head.now))) } }
    ensures whole { length units.new.text % 8 ≡ 0 }
    ensures length { length units.new.text ≤ length units.old.text + 8 * 800 }
    ensures payload { payload.new.room ≡ payload.old.room }
    ensures payload_made { payload.new.made ≡ payload.old.made }
{
    payload.clear();
    // 4096 bits are room enough for a parameter set.
    let _ = write_sps(
        payload,
        &SeqHead {
            width: head.width,
            height: head.height,
            level: 51,
            refs: 1,
            timing: None,
        },
    );
    // And for its trailing bits.
    let _ = payload.trail();
    append_unit(units, UNIT_SEQUENCE_SET, payload.bytes(), true);
}

fn append_picture_set(units: &mut BitBuf, payload: &mut BitBuf)
    requires whole { length units.old.text % 8 ≡ 0 }
    requires payload { 4096 ≤ payload.old.room }
    requires room { length units.old.text + 8 * 800 ≤ units.old.room }
    ensures text { units.new ≡ record units.old { text = units.old.text ++ bits_of_bytes (unit_bytes true 3 8 (picture_payload false false)) } }
    ensures whole { length units.new.text % 8 ≡ 0 }
    ensures length { length units.new.text ≤ length units.old.text + 8 * 800 }
    ensures payload { payload.new.room ≡ payload.old.room }
    ensures payload_made { payload.new.made ≡ payload.old.made }
{
    payload.clear();
    // 4096 bits are room enough for a parameter set.
    let _ = write_pps(payload, false, false);
    let _ = payload.trail();
    append_unit(units, UNIT_PICTURE_SET, payload.bytes(), true);
}

fn append_slice(
    units: &mut BitBuf,
    payload: &mut BitBuf,
    head: &FilmHead,
    number: u32,
    picture: &Picture,
)
    requires head { AllowedHead head.now }
    requires width { picture.now.y.width ≡ padded_size head.now.width }
    requires height { picture.now.y.height ≡ padded_size head.now.height }
    requires whole { length units.old.text % 8 ≡ 0 }
    requires payload { 8 * payload_most head.now ≤ payload.old.room }
    requires room { length units.old.text + 8 * (5 + payload_most head.now + payload_most head.now / 2) ≤ units.old.room }
    ensures text { units.new ≡ record units.old { text = units.old.text ++ bits_of_bytes (unit_bytes false 3 5 (bytes_of_bits (stored_slice_bits (mbs_across head.now) (mbs_down head.now) number (planes_of picture.now)))) } }
    ensures payload { payload.new.room ≡ payload.old.room }
    ensures payload_made { payload.new.made ≡ payload.old.made }
    ensures picture { IsPicture head.now (planes_of picture.now) }
{
    let across = (head.width + 15) / 16;
    let down = (head.height + 15) / 16;
    payload.clear();
    write_pcm_slice(payload, picture, across, down, number);
    append_unit(units, UNIT_IDR_SLICE, payload.bytes(), false);
}

/// Makes `units` the access unit that stores the picture of this number, counted from 0: a sequence parameter set, a
/// picture parameter set and one IDR slice of I_PCM macroblocks. `payload` is room for the payload of one unit; what
/// it holds afterwards isn't told.
pub fn write_access_unit(
    units: &mut BitBuf,
    payload: &mut BitBuf,
    head: &FilmHead,
    number: u32,
    picture: &Picture,
)
    requires head { AllowedHead head.now }
    requires width { picture.now.y.width ≡ padded_size head.now.width }
    requires height { picture.now.y.height ≡ padded_size head.now.height }
    requires payload { 8 * payload_most head.now ≤ payload.old.room }
    requires units { 8 * units_most head.now ≤ units.old.room }
    ensures text { units.new ≡ record units.old { text = bits_of_bytes (stored_picture head.now number (planes_of picture.now)) } }
    ensures payload { payload.new.room ≡ payload.old.room }
    ensures payload_made { payload.new.made ≡ payload.old.made }

    // Its planes have the film's sizes, and their samples are bytes.
    ensures picture { IsPicture head.now (planes_of picture.now) }
{
    units.clear();
    append_sequence(units, payload, head);
    append_picture_set(units, payload);
    append_slice(units, payload, head, number, picture);
}
