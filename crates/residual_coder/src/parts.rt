// Square parts of planes.
ghost use Rattle.std.specs.Prelude.{◌≡◌, ◌≤◌, ◌<◌, ◌+◌, ◌*◌, ◌/◌, ◌%◌, length};
ghost use Rattle.picture_planes.specs.Samples.{SameShape, samples_of};
ghost use Rattle.residual_coder.specs.Stripes.{samples_from};
ghost use Rattle.spec_reconstruction.specs.Luma.{part16};
ghost use Rattle.spec_reconstruction.specs.Parts.{block_at, column_part, row_part, with_block};

use crate::places::{block_column, block_row};
use picture_planes::Plane;
use plane_blocks::read_block;

// Writes a block of `n` by `n` samples, row by row, with its upper left one at (`x`, `y`).
#[inline(always)]
fn write_rows(plane: &mut Plane, x: u32, y: u32, n: u32, block: &[u8])
    requires columns { x + n ≤ plane.old.width }
    requires rows { y + n ≤ plane.old.height }
    requires size { length block.now ≡ n * n }
    ensures shape { SameShape plane.old plane.new }
    ensures samples { samples_of plane.new ≡ with_block plane.old.width x y n block.now (samples_of plane.old) }
{
    let side = n as usize;
    let from = x as usize;
    let to = from + side;
    for j in 0..n {
        let start = j as usize * side;
        let end = start + side;
        let row = plane.row_mut(y + j);
        row[from..to].copy_from_slice(&block[start..end]);
    }
}

/// Writes a block of `n` by `n` samples with its upper left one at (`x`, `y`) of a larger plane, of which `plane` has the rows from `top`
/// on.
#[inline(always)]
pub fn write_block(plane: &mut Plane, top: u32, x: u32, y: u32, n: u32, block: &[u8])
    requires columns { x + n ≤ plane.old.width }
    requires begins { top ≤ y }
    requires rows { y + n ≤ top + plane.old.height }
    requires size { length block.now ≡ n * n }
    ensures shape { SameShape plane.old plane.new }
    ensures samples { samples_from top plane.new ≡ with_block plane.old.width x y n block.now (samples_from top plane.old) }
{
    write_rows(plane, x, y - top, n, block);
}

/// The block of 4 by 4 samples at (`x`, `y`), row by row.
#[inline(always)]
pub fn block4_at(plane: &Plane, x: u32, y: u32) -> [u8; 16]
    requires columns { x + 4 ≤ plane.now.width }
    requires rows { y + 4 ≤ plane.now.height }
    ensures { result ≡ block_at plane.now.width x y 4 (samples_of plane.now) }
{
    let mut block = [0u8; 16];
    read_block(plane, x, y, 4, &mut block);
    block
}

/// The block of 8 by 8 samples at (`x`, `y`), row by row.
#[inline(always)]
pub fn block8_at(plane: &Plane, x: u32, y: u32) -> [u8; 64]
    requires columns { x + 8 ≤ plane.now.width }
    requires rows { y + 8 ≤ plane.now.height }
    ensures { result ≡ block_at plane.now.width x y 8 (samples_of plane.now) }
{
    let mut block = [0u8; 64];
    read_block(plane, x, y, 8, &mut block);
    block
}

/// The block of 4 by 4 samples at (`x`, `y`) of samples that stand row by row, `wide` in each row.
#[inline(always)]
pub fn block_of(wide: u32, samples: &[u8], x: u32, y: u32) -> [u8; 16]
    requires few { wide ≤ 16 }
    requires column { x ≤ 16 }
    requires row { y ≤ 16 }
    requires inside { (y + 3) * wide + x + 4 ≤ length samples.now }
    ensures { result ≡ block_at wide x y 4 samples.now }
{
    let mut block = [0u8; 16];
    for j in 0..4u32 {
        let from = ((y + j) * wide + x) as usize;
        let start = j as usize * 4;
        let end = start + 4;
        block[start..end].copy_from_slice(&samples[from..from + 4]);
    }
    block
}

/// 4x4 block `b` of a prediction of a macroblock's luma samples.
#[inline(always)]
pub fn part16(prediction: &[u8; 256], b: u32) -> [u8; 16]
    requires { b < 16 }
    ensures { result ≡ part16 prediction.now b }
{
    block_of(16, prediction, 4 * block_column(b), 4 * block_row(b))
}

/// 8x8 block `k` of a prediction of a macroblock's luma samples.
#[inline(always)]
pub fn part8(prediction: &[u8; 256], k: u32) -> [u8; 64]
    requires { k < 4 }
    ensures { result ≡ block_at 16 (8 * (k % 2)) (8 * (k / 2)) 8 prediction.now }
{
    let x = 8 * (k % 2);
    let y = 8 * (k / 2);
    let mut block = [0u8; 64];
    for j in 0..8u32 {
        let from = ((y + j) * 16 + x) as usize;
        let start = j as usize * 8;
        let end = start + 8;
        block[start..end].copy_from_slice(&prediction[from..from + 8]);
    }
    block
}
