// Blocks that are predicted by a vector.
ghost use Rattle.std.specs.Prelude.{◌≡◌, ◌≤◌, ◌<◌, ◌+◌, ◌*◌, ◌⊎◌, ℕ, pos, negsuc, ◌+ℤ◌, ◌≤ℤ◌};
ghost use Rattle.picture_planes.specs.Margins.{IsFilled};
ghost use Rattle.spec_inter.specs.Blocks.{RowsOf};
ghost use Rattle.subpel_filter.specs.Predicted.{luma_at, chroma_at, IsShort};
ghost use Rattle.subpel_filter.specs.Halves.{AreSized, AreHalves, luma_kept};

use crate::chroma::eighth_block;
use crate::fractions::quarter_block;
use crate::halves::HalfPlanes;
use crate::kept::kept_block;
use enc_tables::Vector;
use picture_planes::Plane;

// Where a part of a vector leads from a place of the buffer, in parts of a sample: `parts` of them are a whole one.
fn moved(place: u32, parts: u32, part: i16) -> usize
    requires place { (17 ≤ place) × (place ≤ 5000) }
    requires parts { (parts ≡ 4) ⊎ (parts ≡ 8) }
    requires room { pos 0 ≤ℤ (pos (parts * place) +ℤ part) }
    requires small { part ≤ℤ pos 131 }
    ensures { pos result ≡ pos (parts * place) +ℤ part }
{
    ((parts * place) as i32 + part as i32) as usize
}

/// Predicts a block of luma samples: those of the reference `plane` to which the vector `v`, in quarter samples, leads
/// from the block at column `x` and row `y`. The block is `w` columns wide and `h` rows high, 8 or 16 each; the first
/// `w * h` items of `out` are its samples, row by row.
pub fn luma_block(plane: &Plane, x: u32, y: u32, v: Vector, w: u32, h: u32, out: &mut [u8; 256])
    requires margin { plane.now.pad ≡ 40 }
    requires filled { IsFilled plane.now }
    requires width { (w ≡ 8) ⊎ (w ≡ 16) }
    requires height { (h ≡ 8) ⊎ (h ≡ 16) }
    requires inside { (x + w ≤ plane.now.width) × (y + h ≤ plane.now.height) }
    requires short { IsShort v }
    ensures { RowsOf (luma_at plane.now x y v) w h out.new }
{
    let across = moved(x + 38, 4, v.x);
    let down = moved(y + 38, 4, v.y);
    let rows = h as usize;
    if w == 16 {
        quarter_block::<16>(plane, across % 4, down % 4, across / 4, down / 4, rows, out);
    } else {
        quarter_block::<8>(plane, across % 4, down % 4, across / 4, down / 4, rows, out);
    }
}

/// Predicts the block of `luma_block` from half samples that are kept, whatever they hold: each sample is the mean of
/// two samples that stand in `plane` and in the planes of `halves`. Where `halves` is filled from `plane` by
/// `fill_halves`, the block is that of `luma_block`. The four planes have one size and margin.
pub fn luma_from(
    plane: &Plane,
    halves: &HalfPlanes,
    x: u32,
    y: u32,
    v: Vector,
    w: u32,
    h: u32,
    out: &mut [u8; 256],
)
    requires margin { plane.now.pad ≡ 40 }
    requires filled { IsFilled plane.now }
    requires sizes { AreSized plane.now halves.now }
    requires width { (w ≡ 8) ⊎ (w ≡ 16) }
    requires height { (h ≡ 8) ⊎ (h ≡ 16) }
    requires inside { (x + w ≤ plane.now.width) × (y + h ≤ plane.now.height) }
    requires short { IsShort v }
    ensures kept { RowsOf (luma_kept plane.now halves.now x y v) w h out.new }
    ensures same { AreHalves plane.now halves.now → RowsOf (luma_at plane.now x y v) w h out.new }
{
    let right = moved(x + 38, 4, v.x);
    let below = moved(y + 38, 4, v.y);
    let rows = h as usize;
    if w == 16 {
        kept_block::<16>(
            plane,
            halves,
            right % 4,
            below % 4,
            right / 4,
            below / 4,
            rows,
            out,
        );
    } else {
        kept_block::<8>(
            plane,
            halves,
            right % 4,
            below % 4,
            right / 4,
            below / 4,
            rows,
            out,
        );
    }
}

/// Predicts a block of chroma samples: those of the reference `plane` to which the vector `v`, in eighth samples, leads
/// from the block at column `x` and row `y`. The block is `w` columns wide and `h` rows high, 4 or 8 each; the first
/// `w * h` items of `out` are its samples, row by row.
pub fn chroma_block(plane: &Plane, x: u32, y: u32, v: Vector, w: u32, h: u32, out: &mut [u8; 64])
    requires margin { plane.now.pad ≡ 20 }
    requires filled { IsFilled plane.now }
    requires width { (w ≡ 4) ⊎ (w ≡ 8) }
    requires height { (h ≡ 4) ⊎ (h ≡ 8) }
    requires inside { (x + w ≤ plane.now.width) × (y + h ≤ plane.now.height) }
    requires short { IsShort v }
    ensures { RowsOf (chroma_at plane.now x y v) w h out.new }
{
    let across = moved(x + 20, 8, v.x);
    let down = moved(y + 20, 8, v.y);
    let rows = h as usize;
    if w == 8 {
        eighth_block::<8>(
            plane,
            (across % 8) as u16,
            (down % 8) as u16,
            across / 8,
            down / 8,
            rows,
            out,
        );
    } else {
        eighth_block::<4>(
            plane,
            (across % 8) as u16,
            (down % 8) as u16,
            across / 8,
            down / 8,
            rows,
            out,
        );
    }
}
