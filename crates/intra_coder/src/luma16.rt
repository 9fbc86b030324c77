// The luma samples of Intra_16x16 macroblocks.
ghost use Rattle.std.specs.Prelude.{◌≡◌, ◌≤◌, ◌<◌, ◌+◌, ◌*◌, ◌/◌, ℕ, true, length, slice_index};
ghost use Rattle.enc_tables.specs.declared.transform.TheConstants.{ZIGZAG4};
ghost use Rattle.intra_coder.specs.Made.{BlocksQuantised, others16};
ghost use Rattle.residual_coder.specs.Made.{IsQuantised};
ghost use Rattle.residual_coder.specs.Inside.{IsSource};
ghost use Rattle.intra_coder.specs.Reach.{Stands};
ghost use Rattle.residual_coder.specs.Stripes.{samples_from};
ghost use Rattle.picture_planes.specs.Samples.{SameShape, samples_of};
ghost use Rattle.spec_reconstruction.specs.InOrder.{built_in_order, joined, levels_of_block};
ghost use Rattle.spec_reconstruction.specs.Luma.{build16, firsts16, place16, luma16_built, luma16_dc, luma16_levels, part16, spectrum16, unscanned};
ghost use Rattle.spec_reconstruction.specs.Parts.{block_at};
ghost use Rattle.spec_reconstruction.specs.Residuals.{levels_without_dc};
ghost use Rattle.spec_residual.specs.Blocks.{AllWithin, item};
ghost use Rattle.spec_basics.specs.Bounds.{Within};
ghost use Rattle.spec_residual.specs.Levels.{IsMade};
ghost use Rattle.spec_residual.specs.declared.BlockKind.TheVariants.{Luma4, LumaDc};

use crate::near::near16;
use intra_pred::pred16;
use picture_planes::Plane;
use residual_coder::{
    block_column, block_row, block4_at, built_with_dc, levels_without_dc, part16, spectrum4,
    write_block, zigzag4,
};
use spec_reconstruction::Site;
use spec_residual::BlockKind;
use transform_quant::{luma_dc, quantise4, rescale_luma_dc};

// The coefficients of block `b`.
#[inline(always)]
fn spectrum16(source: &Plane, site: &Site, prediction: &[u8; 256], b: u32) -> [i32; 16]
    requires block { b < 16 }
    requires columns { site.now.x + 16 ≤ source.now.width }
    requires rows { site.now.y + 16 ≤ source.now.height }
    ensures value { result ≡ spectrum16 source.now.width site.now (samples_of source.now) prediction.now b }
    ensures small { AllWithin 16 9180 result }
    ensures first { Within 4080 (item result 0) }
{
    let x = site.x + 4 * block_column(b);
    let y = site.y + 4 * block_row(b);
    let original = block4_at(source, x, y);
    let part = part16(prediction, b);
    spectrum4(&original, &part)
}

/// Levels in zigzag order, row by row.
#[inline(always)]
pub fn unscanned(levels: &[i16; 16], qp: u8) -> [i16; 16]
    requires small { AllWithin 16 8191 levels.now }
    requires made { (s : ℕ) → s < 16 → IsMade LumaDc true qp (slice_index ZIGZAG4 s) (item levels.now s) }
    ensures value { result ≡ unscanned levels.now }
    ensures small { AllWithin 16 8191 result }
    ensures made { (p : ℕ) → IsMade LumaDc true qp p (item result p) }
{
    let mut rows = [0i16; 16];
    for s in 0..16usize {
        let place = zigzag4(s);
        rows[place as usize] = levels[s];
    }
    rows
}

#[inline(always)]
fn place16(b: u32) -> usize
    requires { b < 16 }
    ensures value { result ≡ place16 b }
    ensures small { result < 16 }
{
    (4 * block_row(b) + block_column(b)) as usize
}

#[inline(always)]
fn coefficient_at(coefficients: &[i32; 16], place: usize) -> i32
    requires { place < 16 }
    ensures { result ≡ item coefficients.now place }
{
    coefficients[place]
}

// The first coefficients of all blocks, row by row, and the levels of the other coefficients, those of block b at 16b.
#[derive(Clone, Copy)]
struct Spectra {
    firsts: [i32; 16],
    levels: [i16; 256],
}

#[inline(always)]
fn spectra16(source: &Plane, site: &Site, prediction: &[u8; 256]) -> Spectra
    requires in_range { site.now.qp ≤ 51 }
    requires columns { site.now.x + 16 ≤ source.now.width }
    requires rows { site.now.y + 16 ≤ source.now.height }
    ensures firsts { result.firsts ≡ firsts16 source.now.width site.now (samples_of source.now) prediction.now }
    ensures small { AllWithin 16 4080 result.firsts }
    ensures levels { result.levels ≡ others16 source.now.width site.now (samples_of source.now) prediction.now }
    ensures quantised { BlocksQuantised site.now.qp 16 result.levels }
{
    let mut firsts = [0i32; 16];
    let mut levels = [0i16; 256];
    for b in 0..16u32 {
        let spectrum = spectrum16(source, site, prediction, b);
        let first = coefficient_at(&spectrum, 0);
        let place = place16(b);
        firsts[place] = first;
        let block = levels_without_dc(BlockKind::Luma4, true, site.qp, &spectrum);
        let start = b as usize * 16;
        let end = start + 16;
        levels[start..end].copy_from_slice(&block);
    }
    Spectra { firsts, levels }
}

#[inline(always)]
fn block_levels(levels: &[i16; 256], b: u32) -> [i16; 16]
    requires { b < 16 }
    ensures { result ≡ levels_of_block 16 b levels.now }
{
    let mut block = [0i16; 16];
    let start = b as usize * 16;
    let end = start + 16;
    block.copy_from_slice(&levels[start..end]);
    block
}

// Builds block `b` in the plane from its levels and the DC coefficients.
#[inline(always)]
fn build_block16(
    plane: &mut Plane,
    top: u32,
    site: &Site,
    prediction: &[u8; 256],
    dcs: &[i32; 16],
    levels: &[i16; 256],
    b: u32,
)
    requires block { b < 16 }
    requires in_range { site.now.qp ≤ 51 }
    requires top { top < 2304 }
    requires stands { Stands site.now top plane.old }
    requires dcs { AllWithin 16 1048576 dcs.now }
    requires quantised { IsQuantised Luma4 site.now.qp (levels_of_block 16 b levels.now) }
    ensures shape { SameShape plane.old plane.new }
    ensures samples { samples_from top plane.new ≡ build16 plane.old.width site.now prediction.now dcs.now b (levels_of_block 16 b levels.now) (samples_from top plane.old) }
{
    let x = site.x + 4 * block_column(b);
    let y = site.y + 4 * block_row(b);
    let part = part16(prediction, b);
    let block = block_levels(levels, b);
    let dc = coefficient_at(dcs, place16(b));
    let samples = built_with_dc(BlockKind::Luma4, site.qp, dc, &block, &part);
    write_block(plane, top, x, y, 4, &samples);
}

/// Builds the luma samples in the plane from the DC coefficients and the levels of the others.
pub fn build_luma16(
    plane: &mut Plane,
    top: u32,
    site: &Site,
    prediction: &[u8; 256],
    dcs: &[i32; 16],
    levels: &[i16; 256],
)
    requires in_range { site.now.qp ≤ 51 }
    requires top { top < 2304 }
    requires stands { Stands site.now top plane.old }
    requires dcs { AllWithin 16 1048576 dcs.now }
    requires quantised { BlocksQuantised site.now.qp 16 levels.now }
    ensures shape { SameShape plane.old plane.new }
    ensures samples { samples_from top plane.new ≡ built_in_order (build16 plane.old.width site.now prediction.now dcs.now) 16 levels.now 16 (samples_from top plane.old) }
{
    for b in 0..16u32 {
        build_block16(plane, top, site, prediction, dcs, levels, b);
    }
}

/// The levels of the luma samples of an Intra_16x16 macroblock.
#[derive(Clone, Copy)]
pub struct Luma16 {
    /// The DC levels, in zigzag order.
    pub dc: [i16; 16],
    /// The levels of the other coefficients, those of block b in zigzag order at 16b, of which the first is 0.
    pub levels: [i16; 256],
}

/// Codes the luma samples of an Intra_16x16 macroblock and builds them in the plane, which has the picture's rows from `top` on.
pub fn code_luma16(plane: &mut Plane, top: u32, source: &Plane, site: &Site, mode: u8) -> Luma16
    requires in_range { site.now.qp ≤ 51 }
    requires stands { Stands site.now top plane.old }
    requires source { IsSource 16 site.now.y plane.old source.now }
    requires mode { mode < 4 }
    ensures shape { SameShape plane.old plane.new }
    ensures dc { result.dc ≡ luma16_dc plane.old.width site.now mode (samples_of source.now) (samples_from top plane.old) }
    ensures levels { result.levels ≡ luma16_levels plane.old.width site.now mode (samples_of source.now) (samples_from top plane.old) }
    ensures samples { samples_from top plane.new ≡ luma16_built plane.old.width site.now mode result.dc result.levels (samples_from top plane.old) }
{
    let near = near16(plane, top, &site.near, site.x, site.y);
    let prediction = pred16(mode, &near);
    let spectra = spectra16(source, site, &prediction);
    let means = luma_dc(&spectra.firsts);
    let quantised = quantise4(BlockKind::LumaDc, true, site.qp, &means);
    let rows = unscanned(&quantised.levels, site.qp);
    let dcs = rescale_luma_dc(site.qp, &rows);
    build_luma16(plane, top, site, &prediction, &dcs, &spectra.levels);
    Luma16 {
        dc: quantised.levels,
        levels: spectra.levels,
    }
}
