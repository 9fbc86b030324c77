// The whole slice.
ghost use Rattle.std.specs.Prelude.{◌≡◌, ◌≤◌, ◌<◌, ◌+◌, ◌*◌, ◌/◌, ◌%◌, ◌^◌, ◌++◌, [], ℕ, length, All};
ghost use Rattle.spec_bits.specs.Bits.{IsByte};
ghost use Rattle.spec_headers.specs.HeadFields.{slice_head_bits};
ghost use Rattle.spec_stream.specs.Stored.{macroblock_samples, stored_slice_bits, stored_slice_head};
ghost use Rattle.picture_planes.specs.Pictures.{planes_of};
ghost use Rattle.stored_picture.specs.Sizes.{InMacroblocks};

use crate::append::append;
use crate::macroblocks::append_macroblocks;
use bit_strings::BitBuf;
use enc_tables::SliceKind;
use param_sets::{SliceHead, write_slice_head};
use picture_planes::Picture;

// Appends the slice header of the picture of this number: each picture is an IDR picture.
fn append_head(out: &mut BitBuf, number: u32)
    requires empty { out.old.text ≡ [] }
    requires room { 3175 ≤ out.old.room }
    ensures text { out.new ≡ record out.old { text = slice_head_bits (stored_slice_head number) } }
    ensures length { length out.new.text ≤ 3175 }
{
    let head = SliceHead {
        first_mb: 0,
        kind: SliceKind::I,
        idr: true,
        frame_num: 0,
        idr_id: (number % 2) as u8,
        poc: 0,
        refs0: 0,
        refs1: 0,
        moved: None,
        qp: 26,
        cabac: false,
    };
    // There is room for any header, by `room`.
    let _ = write_slice_head(out, &head);
}

/// Writes the slice that stores the picture of this number, counted from 0: an IDR slice of I_PCM macroblocks over
/// the whole picture (ITU-T H.264, clauses 7.3.3, 7.3.4 and 7.3.5), with its trailing bits, as a payload without
/// emulation prevention bytes.
///
/// The buffer is empty and has room: 3088 bits for each macroblock, and 4096 for the rest.
pub fn write_pcm_slice(out: &mut BitBuf, picture: &Picture, across: u32, down: u32, number: u32)
    requires empty { out.old.text ≡ [] }
    requires picture { InMacroblocks across picture.now }
    requires down { 16 * down ≡ picture.now.y.height }
    requires room { 4096 + 3088 * (across * down) ≤ out.old.room }
    ensures text { out.new ≡ record out.old { text = stored_slice_bits across down number (planes_of picture.now) } }
    ensures whole { length out.new.text % 8 ≡ 0 }
    ensures length { length out.new.text ≤ 4096 + 3088 * (across * down) }
    ensures bytes { (k : ℕ) → k < across * down → All IsByte (macroblock_samples across (planes_of picture.now) k) }
{
    append_head(out, number);
    append_macroblocks(out, picture, across, down);
    append(out, 8, 128);
}
