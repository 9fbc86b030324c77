// The luma samples of Intra_8x8 macroblocks.
ghost use Rattle.std.specs.Prelude.{◌≡◌, ◌≤◌, ◌<◌, ◌+◌, ◌*◌, ◌/◌, ◌%◌, ℕ, slice_index};
ghost use Rattle.residual_coder.specs.Inside.{IsSource};
ghost use Rattle.intra_coder.specs.Reach.{Stands};
ghost use Rattle.residual_coder.specs.Stripes.{samples_from};
ghost use Rattle.picture_planes.specs.Samples.{SameShape, samples_of};
ghost use Rattle.spec_reconstruction.specs.Luma.{build8, choose8, luma8_built, luma8_levels, prediction8};

use crate::near::near8;
use intra_pred::pred8;
use picture_planes::Plane;
use plane_blocks::near_block8;
use residual_coder::{block8_at, code8, write_block};
use spec_reconstruction::Site;

#[inline(always)]
#[tactic(auto, using(crate::proofs::Standing::readable8))]
fn prediction8(plane: &Plane, top: u32, site: &Site, modes: &[u8; 16], b: u32) -> [u8; 64]
    requires block { b < 4 }
    requires top { top < 2304 }
    requires stands { Stands site.now top plane.now }
    requires mode { slice_index modes.now b < 9 }
    ensures { result ≡ prediction8 plane.now.width site.now modes.now b (samples_from top plane.now) }
{
    let avail = near_block8(&site.near, b % 2, b / 2);
    let near = near8(
        plane,
        top,
        &avail,
        site.x + 8 * (b % 2),
        site.y + 8 * (b / 2),
    );
    pred8(modes[b as usize], &near)
}

// Codes block `b` and builds it in the plane.
#[inline(always)]
fn code_block8(
    plane: &mut Plane,
    top: u32,
    source: &Plane,
    site: &Site,
    modes: &[u8; 16],
    b: u32,
) -> [i16; 64]
    requires block { b < 4 }
    requires in_range { site.now.qp ≤ 51 }
    requires stands { Stands site.now top plane.old }
    requires source { IsSource 16 site.now.y plane.old source.now }
    requires mode { slice_index modes.now b < 9 }
    ensures shape { SameShape plane.old plane.new }
    ensures levels { result ≡ choose8 plane.old.width site.now modes.now (samples_of source.now) b (samples_from top plane.old) }
    ensures samples { samples_from top plane.new ≡ build8 plane.old.width site.now modes.now b result (samples_from top plane.old) }
{
    let x = site.x + 8 * (b % 2);
    let y = site.y + 8 * (b / 2);
    let prediction = prediction8(plane, top, site, modes, b);
    let original = block8_at(source, x, y);
    let coded = code8(true, site.qp, &original, &prediction);
    write_block(plane, top, x, y, 8, &coded.samples);
    coded.levels
}

/// Codes the luma samples of an Intra_8x8 macroblock: each of the four blocks is predicted from the samples built so far, its
/// levels are those of the source's difference, and it is built in the plane, which has the picture's rows from `top` on. Of the modes the
/// first four count. The levels are those of block b at 64b.
pub fn code_luma8(
    plane: &mut Plane,
    top: u32,
    source: &Plane,
    site: &Site,
    modes: &[u8; 16],
) -> [i16; 256]
    requires in_range { site.now.qp ≤ 51 }
    requires stands { Stands site.now top plane.old }
    requires source { IsSource 16 site.now.y plane.old source.now }
    requires modes { (b : ℕ) → b < 4 → slice_index modes.now b < 9 }
    ensures shape { SameShape plane.old plane.new }
    ensures levels { result ≡ luma8_levels plane.old.width site.now modes.now (samples_of source.now) (samples_from top plane.old) }
    ensures samples { samples_from top plane.new ≡ luma8_built plane.old.width site.now modes.now result (samples_from top plane.old) }
{
    let mut levels = [0i16; 256];
    for b in 0..4u32 {
        let block = code_block8(plane, top, source, site, modes, b);
        let start = b as usize * 64;
        let end = start + 64;
        levels[start..end].copy_from_slice(&block);
    }
    levels
}
