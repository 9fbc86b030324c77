// The samples of a chroma component of a macroblock.
ghost use Rattle.std.specs.Prelude.{◌≡◌, ◌≤◌, ◌<◌, ◌+◌, ◌*◌, ◌/◌, ◌%◌, ◌∷◌, ℕ, pos, length, slice_index};
ghost use Rattle.residual_coder.specs.Inside.{Inside, IsSource};
ghost use Rattle.residual_coder.specs.Made.{ChromaQuantised, FoursQuantised, IsQuantised, others_chroma};
ghost use Rattle.residual_coder.specs.Stripes.{samples_from};
ghost use Rattle.picture_planes.specs.Samples.{SameShape, samples_of};
ghost use Rattle.spec_reconstruction.specs.Chroma.{build_chroma, chroma_ac_levels, chroma_dc_levels, chroma_over, chroma_qp, part_chroma, spectrum_chroma};
ghost use Rattle.spec_reconstruction.specs.InOrder.{built_in_order, levels_of_block};
ghost use Rattle.spec_residual.specs.Blocks.{AllWithin, item, listed};
ghost use Rattle.spec_basics.specs.Bounds.{Within};
ghost use Rattle.spec_residual.specs.declared.BlockKind.TheVariants.{Chroma4, ChromaDc};

use crate::luma::{built_with_dc, levels_without_dc, spectrum4};
use crate::parts::{block_of, block4_at, write_block};
use enc_tables::CHROMA_QP;
use picture_planes::Plane;
use spec_reconstruction::Site;
use spec_residual::BlockKind;
use transform_quant::{chroma_dc, quantise_chroma_dc, rescale_chroma_dc};

// The chroma quantisation parameter (ITU-T H.264, clause 8.5.8).
#[inline(always)]
fn chroma_qp(qp: u8) -> u8
    requires { qp ≤ 51 }
    ensures value { result ≡ chroma_qp qp }
    ensures small { result ≤ 51 }
{
    CHROMA_QP[qp as usize]
}

#[inline(always)]
fn part_chroma(prediction: &[u8; 64], b: u32) -> [u8; 16]
    requires { b < 4 }
    ensures { result ≡ part_chroma prediction.now b }
{
    block_of(8, prediction, 4 * (b % 2), 4 * (b / 2))
}

// The coefficients of block `b`.
#[inline(always)]
fn spectrum_chroma(source: &Plane, site: &Site, prediction: &[u8; 64], b: u32) -> [i32; 16]
    requires block { b < 4 }
    requires columns { site.now.x / 2 + 8 ≤ source.now.width }
    requires rows { site.now.y / 2 + 8 ≤ source.now.height }
    ensures value { result ≡ spectrum_chroma source.now.width site.now (samples_of source.now) prediction.now b }
    ensures small { AllWithin 16 9180 result }
    ensures first { Within 4080 (item result 0) }
{
    let x = site.x / 2 + 4 * (b % 2);
    let y = site.y / 2 + 4 * (b / 2);
    let original = block4_at(source, x, y);
    let part = part_chroma(prediction, b);
    spectrum4(&original, &part)
}

#[inline(always)]
fn first_of(coefficients: &[i32; 16]) -> i32
    ensures { result ≡ item coefficients.now 0 }
{
    coefficients[0]
}

#[inline(always)]
fn dc_at(dcs: &[i32; 4], b: u32) -> i32
    requires { b < 4 }
    ensures { result ≡ item dcs.now b }
{
    dcs[b as usize]
}

// The first coefficients of the four blocks, and the levels of the others, those of block b at 15b.
#[derive(Clone, Copy)]
struct Spectra {
    firsts: [i32; 4],
    ac: [i16; 60],
}

#[inline(always)]
fn spectra_chroma(
    source: &Plane,
    site: &Site,
    intra: bool,
    qp: u8,
    prediction: &[u8; 64],
) -> Spectra
    requires in_range { qp ≤ 51 }
    requires columns { site.now.x / 2 + 8 ≤ source.now.width }
    requires rows { site.now.y / 2 + 8 ≤ source.now.height }
    ensures firsts { result.firsts ≡ listed 4 (λ b. item (spectrum_chroma source.now.width site.now (samples_of source.now) prediction.now b) 0) }
    ensures small { AllWithin 4 4080 result.firsts }
    ensures ac { result.ac ≡ others_chroma intra source.now.width site.now qp (samples_of source.now) prediction.now }
    ensures quantised { FoursQuantised qp 4 result.ac }
{
    let mut firsts = [0i32; 4];
    let mut ac = [0i16; 60];
    for b in 0..4u32 {
        let spectrum = spectrum_chroma(source, site, prediction, b);
        let first = first_of(&spectrum);
        firsts[b as usize] = first;
        let block = levels_without_dc(BlockKind::Chroma4, intra, qp, &spectrum);
        let start = b as usize * 15;
        let end = start + 15;
        ac[start..end].copy_from_slice(&block[1..16]);
    }
    Spectra { firsts, ac }
}

// The levels of block `b`, a 0 in the place of its DC coefficient.
#[inline(always)]
fn block_levels(ac: &[i16; 60], b: u32) -> [i16; 16]
    requires { b < 4 }
    ensures { result ≡ pos 0 ∷ levels_of_block 15 b ac.now }
{
    let mut block = [0i16; 16];
    let start = b as usize * 15;
    let end = start + 15;
    block[1..16].copy_from_slice(&ac[start..end]);
    block
}

// Builds block `b` in the plane from its levels and the DC coefficients.
#[inline(always)]
fn build_block(
    plane: &mut Plane,
    top: u32,
    site: &Site,
    qp: u8,
    prediction: &[u8; 64],
    dcs: &[i32; 4],
    ac: &[i16; 60],
    b: u32,
)
    requires block { b < 4 }
    requires in_range { qp ≤ 51 }
    requires of_luma { qp ≡ chroma_qp site.now.qp }
    requires top { top < 2304 }
    requires inside { Inside 8 top plane.old (site.now.x / 2) (site.now.y / 2) }
    requires dcs { AllWithin 4 1048576 dcs.now }
    requires quantised { IsQuantised Chroma4 qp (pos 0 ∷ levels_of_block 15 b ac.now) }
    ensures shape { SameShape plane.old plane.new }
    ensures samples { samples_from top plane.new ≡ build_chroma plane.old.width site.now prediction.now dcs.now b (levels_of_block 15 b ac.now) (samples_from top plane.old) }
{
    let x = site.x / 2 + 4 * (b % 2);
    let y = site.y / 2 + 4 * (b / 2);
    let part = part_chroma(prediction, b);
    let block = block_levels(ac, b);
    let dc = dc_at(dcs, b);
    let samples = built_with_dc(BlockKind::Chroma4, qp, dc, &block, &part);
    write_block(plane, top, x, y, 4, &samples);
}

fn build_component(
    plane: &mut Plane,
    top: u32,
    site: &Site,
    qp: u8,
    prediction: &[u8; 64],
    dcs: &[i32; 4],
    ac: &[i16; 60],
)
    requires in_range { qp ≤ 51 }
    requires of_luma { qp ≡ chroma_qp site.now.qp }
    requires top { top < 2304 }
    requires inside { Inside 8 top plane.old (site.now.x / 2) (site.now.y / 2) }
    requires dcs { AllWithin 4 1048576 dcs.now }
    requires quantised { FoursQuantised qp 4 ac.now }
    ensures shape { SameShape plane.old plane.new }
    ensures samples { samples_from top plane.new ≡ built_in_order (build_chroma plane.old.width site.now prediction.now dcs.now) 15 ac.now 4 (samples_from top plane.old) }
{
    for b in 0..4u32 {
        build_block(plane, top, site, qp, prediction, dcs, ac, b);
    }
}

/// The levels of a chroma component.
#[derive(Clone, Copy)]
pub struct Chroma {
    /// The DC levels.
    pub dc: [i16; 4],
    /// The AC levels, those of block b in zigzag order at 15b.
    pub ac: [i16; 60],
}

/// The levels of a chroma component of a macroblock over a prediction of its samples. The quantiser rounds as for intra macroblocks where
/// `intra` is set, and else as for inter macroblocks.
pub fn chroma_levels(source: &Plane, site: &Site, intra: bool, prediction: &[u8; 64]) -> Chroma
    requires in_range { site.now.qp ≤ 51 }
    requires columns { site.now.x / 2 + 8 ≤ source.now.width }
    requires rows { site.now.y / 2 + 8 ≤ source.now.height }
    ensures dc { result.dc ≡ chroma_dc_levels intra source.now.width site.now (samples_of source.now) prediction.now }
    ensures ac { result.ac ≡ chroma_ac_levels intra source.now.width site.now (samples_of source.now) prediction.now }
    ensures quantised { ChromaQuantised (chroma_qp site.now.qp) result.dc result.ac }
{
    let qp = chroma_qp(site.qp);
    let spectra = spectra_chroma(source, site, intra, qp, prediction);
    let means = chroma_dc(&spectra.firsts);
    let quantised = quantise_chroma_dc(intra, qp, &means);
    let dc = quantised.levels;
    let ac = spectra.ac;
    Chroma { dc, ac }
}

/// Builds a chroma component of a macroblock from its levels over a prediction, as a decoder does, in the component's plane, which has the
/// picture's rows from `top` on.
pub fn build_chroma(
    plane: &mut Plane,
    top: u32,
    site: &Site,
    prediction: &[u8; 64],
    levels: &Chroma,
)
    requires in_range { site.now.qp ≤ 51 }
    requires top { top < 2304 }
    requires inside { Inside 8 top plane.old (site.now.x / 2) (site.now.y / 2) }
    requires quantised { ChromaQuantised (chroma_qp site.now.qp) levels.now.dc levels.now.ac }
    ensures shape { SameShape plane.old plane.new }
    ensures samples { samples_from top plane.new ≡ chroma_over plane.old.width site.now prediction.now levels.now.dc levels.now.ac (samples_from top plane.old) }
{
    let qp = chroma_qp(site.qp);
    let dcs = rescale_chroma_dc(qp, &levels.dc);
    build_component(plane, top, site, qp, prediction, &dcs, &levels.ac);
}

/// Codes a chroma component of a macroblock over a prediction of its samples: the levels of `chroma_levels`, and the samples that
/// `build_chroma` makes of them.
pub fn code_chroma(
    plane: &mut Plane,
    top: u32,
    source: &Plane,
    site: &Site,
    intra: bool,
    prediction: &[u8; 64],
) -> Chroma
    requires in_range { site.now.qp ≤ 51 }
    requires inside { Inside 8 top plane.old (site.now.x / 2) (site.now.y / 2) }
    requires source { IsSource 8 (site.now.y / 2) plane.old source.now }
    ensures shape { SameShape plane.old plane.new }
    ensures dc { result.dc ≡ chroma_dc_levels intra plane.old.width site.now (samples_of source.now) prediction.now }
    ensures ac { result.ac ≡ chroma_ac_levels intra plane.old.width site.now (samples_of source.now) prediction.now }
    ensures samples { samples_from top plane.new ≡ chroma_over plane.old.width site.now prediction.now result.dc result.ac (samples_from top plane.old) }
{
    let levels = chroma_levels(source, site, intra, prediction);
    build_chroma(plane, top, site, prediction, &levels);
    levels
}
