// The macroblocks of a picture, one after another.
ghost use Rattle.std.specs.Prelude.{◌≡◌, ◌≤◌, ◌<◌, ◌+◌, ◌*◌, ◌%◌, ◌++◌, ℕ, length, All};
ghost use Rattle.spec_stream.specs.Stored.{macroblock_samples, macroblocks_of, pcm_slice_bits};
ghost use Rattle.spec_bits.specs.Bits.{IsByte};
ghost use Rattle.picture_planes.specs.Pictures.{planes_of};
ghost use Rattle.stored_picture.specs.Sizes.{InMacroblocks};

use crate::blocks::append_macroblock;
use bit_strings::BitBuf;
use picture_planes::Picture;

/// Appends all macroblocks of a picture in raster scan.
pub fn append_macroblocks(out: &mut BitBuf, picture: &Picture, across: u32, down: u32)
    requires picture { InMacroblocks across picture.now }
    requires down { 16 * down ≡ picture.now.y.height }
    requires room { length out.old.text + 3088 * (across * down) ≤ out.old.room }
    ensures text { out.new ≡ record out.old { text = out.old.text ++ pcm_slice_bits (length out.old.text) (macroblocks_of across down (planes_of picture.now)) } }
    ensures length { length out.new.text ≤ length out.old.text + 3088 * (across * down) }
    ensures whole { 0 < across * down → length out.new.text % 8 ≡ 0 }
    ensures bytes { (k : ℕ) → k < across * down → All IsByte (macroblock_samples across (planes_of picture.now) k) }
{
    for k in 0..across * down {
        append_macroblock(out, picture, across, k);
    }
}
