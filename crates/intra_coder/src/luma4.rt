// The luma samples of Intra_4x4 macroblocks.
ghost use Rattle.std.specs.Prelude.{◌≡◌, ◌≤◌, ◌<◌, ◌+◌, ◌*◌, ℕ, slice_index};
ghost use Rattle.residual_coder.specs.Inside.{IsSource};
ghost use Rattle.intra_coder.specs.Reach.{Stands};
ghost use Rattle.residual_coder.specs.Stripes.{samples_from};
ghost use Rattle.picture_planes.specs.Samples.{SameShape, samples_of};
ghost use Rattle.spec_reconstruction.specs.Luma.{build4, choose4, luma4_built, luma4_levels, prediction4};

use crate::near::near4;
use intra_pred::pred4;
use picture_planes::Plane;
use plane_blocks::near_block4;
use residual_coder::{block_column, block_row, block4_at, code4, write_block};
use spec_reconstruction::Site;

#[inline(always)]
fn prediction4(plane: &Plane, top: u32, site: &Site, modes: &[u8; 16], b: u32) -> [u8; 16]
    requires block { b < 16 }
    requires top { top < 2304 }
    requires stands { Stands site.now top plane.now }
    requires mode { slice_index modes.now b < 9 }
    ensures { result ≡ prediction4 plane.now.width site.now modes.now b (samples_from top plane.now) }
{
    let column = block_column(b);
    let row = block_row(b);
    let avail = near_block4(&site.near, column, row);
    let near = near4(plane, top, &avail, site.x + 4 * column, site.y + 4 * row);
    pred4(modes[b as usize], &near)
}

// Codes block `b` and builds it in the plane.
#[inline(always)]
fn code_block4(
    plane: &mut Plane,
    top: u32,
    source: &Plane,
    site: &Site,
    modes: &[u8; 16],
    b: u32,
) -> [i16; 16]
    requires block { b < 16 }
    requires in_range { site.now.qp ≤ 51 }
    requires stands { Stands site.now top plane.old }
    requires source { IsSource 16 site.now.y plane.old source.now }
    requires mode { slice_index modes.now b < 9 }
    ensures shape { SameShape plane.old plane.new }
    ensures levels { result ≡ choose4 plane.old.width site.now modes.now (samples_of source.now) b (samples_from top plane.old) }
    ensures samples { samples_from top plane.new ≡ build4 plane.old.width site.now modes.now b result (samples_from top plane.old) }
{
    let x = site.x + 4 * block_column(b);
    let y = site.y + 4 * block_row(b);
    let prediction = prediction4(plane, top, site, modes, b);
    let original = block4_at(source, x, y);
    let coded = code4(true, site.qp, &original, &prediction);
    write_block(plane, top, x, y, 4, &coded.samples);
    coded.levels
}

/// Codes the luma samples of an Intra_4x4 macroblock: each of the sixteen blocks is predicted from the samples built so far, its
/// levels are those of the source's difference, and it is built in the plane, which has the picture's rows from `top` on. The levels are
/// those of block b at 16b.
pub fn code_luma4(
    plane: &mut Plane,
    top: u32,
    source: &Plane,
    site: &Site,
    modes: &[u8; 16],
) -> [i16; 256]
    requires in_range { site.now.qp ≤ 51 }
    requires stands { Stands site.now top plane.old }
    requires source { IsSource 16 site.now.y plane.old source.now }
    requires modes { (b : ℕ) → b < 16 → slice_index modes.now b < 9 }
    ensures shape { SameShape plane.old plane.new }
    ensures levels { result ≡ luma4_levels plane.old.width site.now modes.now (samples_of source.now) (samples_from top plane.old) }
    ensures samples { samples_from top plane.new ≡ luma4_built plane.old.width site.now modes.now result (samples_from top plane.old) }
{
    let mut levels = [0i16; 256];
    for b in 0..16u32 {
        let block = code_block4(plane, top, source, site, modes, b);
        let start = b as usize * 16;
        let end = start + 16;
        levels[start..end].copy_from_slice(&block);
    }
    levels
}
