// Blocks of samples, macroblock by macroblock.
ghost use Rattle.std.specs.Prelude.{◌≡◌, ◌≤◌, ◌<◌, ◌+◌, ◌*◌, ◌/◌, ◌%◌, ◌++◌, length, All};
ghost use Rattle.spec_bits.specs.Bits.{IsByte, bits_of_bytes};
ghost use Rattle.spec_stream.specs.Stored.{block_at, pcm_bits, macroblock_samples};
ghost use Rattle.picture_planes.specs.Samples.{samples_of};
ghost use Rattle.picture_planes.specs.Pictures.{planes_of};
ghost use Rattle.stored_picture.specs.Sizes.{InMacroblocks};

use crate::append::{append_bytes, append_ue, append_zeros_to_byte};
use bit_strings::BitBuf;
use picture_planes::{Picture, Plane};

/// mb_type of I_PCM (ITU-T H.264, table 7-11).
const I_PCM: u32 = 25;

// Appends the block of `size` rows of `size` samples from (x, y) on.
fn append_block(out: &mut BitBuf, plane: &Plane, size: u32, x: u32, y: u32)
    requires whole { length out.old.text % 8 ≡ 0 }
    requires small { size ≤ 16 }
    requires columns { x + size ≤ plane.now.width }
    requires rows { y + size ≤ plane.now.height }
    requires room { length out.old.text + 8 * (size * size) ≤ out.old.room }
    ensures text { out.new ≡ record out.old { text = out.old.text ++ bits_of_bytes (block_at plane.now.width size size x y (samples_of plane.now)) } }
    ensures length { length out.new.text ≡ length out.old.text + 8 * (size * size) }
    ensures bytes { All IsByte (block_at plane.now.width size size x y (samples_of plane.now)) }
{
    let start = x as usize;
    let end = start + size as usize;
    for row in 0..size {
        append_bytes(out, &plane.row(y + row)[start..end]);
    }
}

/// Appends macroblock `k` of a picture that is `across` macroblocks wide: its type, zeros to the byte and its samples
/// (clause 7.3.5).
pub fn append_macroblock(out: &mut BitBuf, picture: &Picture, across: u32, k: u32)
    requires picture { InMacroblocks across picture.now }
    requires inside { 16 * (k / across) + 16 ≤ picture.now.y.height }
    requires room { length out.old.text + 3088 ≤ out.old.room }
    ensures text { out.new ≡ record out.old { text = out.old.text ++ pcm_bits (length out.old.text) (macroblock_samples across (planes_of picture.now) k) } }
    ensures length { length out.new.text ≤ length out.old.text + 3088 }
    ensures whole { length out.new.text % 8 ≡ 0 }
    ensures bytes { All IsByte (macroblock_samples across (planes_of picture.now) k) }
{
    let column = k % across;
    let row = k / across;
    append_ue(out, I_PCM);
    append_zeros_to_byte(out);
    append_block(out, &picture.y, 16, 16 * column, 16 * row);
    append_block(out, &picture.cb, 8, 8 * column, 8 * row);
    append_block(out, &picture.cr, 8, 8 * column, 8 * row);
}
