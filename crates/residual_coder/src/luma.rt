// Luma blocks: forward, and back as a decoder does it.
ghost use Rattle.std.specs.Prelude.{◌≡◌, ◌≤◌, ◌<◌, ◌+◌, ◌*◌};
ghost use Rattle.residual_coder.specs.Made.{AllMade4, IsQuantised, IsQuantised8};
ghost use Rattle.spec_residual.specs.Blocks.{AllWithin, item};
ghost use Rattle.spec_basics.specs.Bounds.{Within};
ghost use Rattle.spec_residual.specs.Levels.{greatest, places};
ghost use Rattle.spec_residual.specs.declared.BlockKind.TheVariants.{Luma4};
ghost use Rattle.spec_reconstruction.specs.Residuals.{built4, built8, built_with_dc, levels_without_dc, luma_levels4, luma_levels8, spectrum4};

use crate::blocks::{constructed, differences, rescaled4, rescaled8};
use spec_residual::BlockKind;
use transform_quant::{forward4, forward8, inverse4, inverse8, quantise4, quantise8};

/// A 4x4 block that was coded.
#[derive(Clone, Copy)]
pub struct Coded4 {
    /// Its levels in zigzag order.
    pub levels: [i16; 16],
    /// Its samples as a decoder builds them.
    pub samples: [u8; 16],
}

/// An 8x8 block that was coded.
#[derive(Clone, Copy)]
pub struct Coded8 {
    /// Its levels in zigzag order.
    pub levels: [i16; 64],
    /// Its samples as a decoder builds them.
    pub samples: [u8; 64],
}

/// The levels of a 4x4 luma block, in zigzag order; the quantiser rounds as for intra macroblocks where `intra` is set, and else as for
/// inter macroblocks.
#[inline(always)]
pub fn levels4(intra: bool, qp: u8, source: &[u8; 16], prediction: &[u8; 16]) -> [i16; 16]
    requires { qp ≤ 51 }
    ensures value { result ≡ luma_levels4 intra qp source.now prediction.now }
    ensures quantised { IsQuantised Luma4 qp result }
{
    let spectrum = forward4(&differences(source, prediction));
    quantise4(BlockKind::Luma4, intra, qp, &spectrum).levels
}

/// The levels of an 8x8 luma block, as with `levels4`.
#[inline(always)]
pub fn levels8(intra: bool, qp: u8, source: &[u8; 64], prediction: &[u8; 64]) -> [i16; 64]
    requires { qp ≤ 51 }
    ensures value { result ≡ luma_levels8 intra qp source.now prediction.now }
    ensures quantised { IsQuantised8 qp result }
{
    let spectrum = forward8(&differences(source, prediction));
    quantise8(intra, qp, &spectrum).levels
}

/// The samples of a 4x4 luma block, as a decoder builds them from its levels.
#[inline(always)]
pub fn built4(qp: u8, levels: &[i16; 16], prediction: &[u8; 16]) -> [u8; 16]
    requires in_range { qp ≤ 51 }
    requires quantised { IsQuantised Luma4 qp levels.now }
    ensures { result ≡ built4 qp levels.now prediction.now }
{
    let coefficients = rescaled4(BlockKind::Luma4, qp, levels);
    constructed(prediction, &inverse4(&coefficients))
}

/// The samples of an 8x8 luma block, as a decoder builds them from its levels.
#[inline(always)]
pub fn built8(qp: u8, levels: &[i16; 64], prediction: &[u8; 64]) -> [u8; 64]
    requires in_range { qp ≤ 51 }
    requires quantised { IsQuantised8 qp levels.now }
    ensures { result ≡ built8 qp levels.now prediction.now }
{
    let coefficients = rescaled8(qp, levels);
    constructed(prediction, &inverse8(&coefficients))
}

/// Codes a 4x4 luma block; the quantiser rounds as for intra macroblocks where `intra` is set, and else as for inter macroblocks.
pub fn code4(intra: bool, qp: u8, source: &[u8; 16], prediction: &[u8; 16]) -> Coded4
    requires { qp ≤ 51 }
    ensures levels { result.levels ≡ luma_levels4 intra qp source.now prediction.now }
    ensures small { AllWithin 16 8191 result.levels }
    ensures samples { result.samples ≡ built4 qp result.levels prediction.now }
{
    let levels = levels4(intra, qp, source, prediction);
    let samples = built4(qp, &levels, prediction);
    Coded4 { levels, samples }
}

/// Codes an 8x8 luma block, as `code4` does.
pub fn code8(intra: bool, qp: u8, source: &[u8; 64], prediction: &[u8; 64]) -> Coded8
    requires { qp ≤ 51 }
    ensures levels { result.levels ≡ luma_levels8 intra qp source.now prediction.now }
    ensures small { AllWithin 64 8191 result.levels }
    ensures samples { result.samples ≡ built8 qp result.levels prediction.now }
{
    let levels = levels8(intra, qp, source, prediction);
    let samples = built8(qp, &levels, prediction);
    Coded8 { levels, samples }
}

/// The coefficients of a 4x4 block's difference from its prediction.
#[inline(always)]
pub fn spectrum4(source: &[u8; 16], prediction: &[u8; 16]) -> [i32; 16]
    ensures value { result ≡ spectrum4 source.now prediction.now }
    ensures small { AllWithin 16 9180 result }
    ensures first { Within 4080 (item result 0) }
{
    forward4(&differences(source, prediction))
}

/// The levels of a 4x4 block whose DC coefficient is coded apart; the first is 0.
#[inline(always)]
pub fn levels_without_dc(kind: BlockKind, intra: bool, qp: u8, spectrum: &[i32; 16]) -> [i16; 16]
    requires in_range { qp ≤ 51 }
    requires of_kind { places kind ≡ 16 }
    requires of_blocks { greatest kind ≡ 9180 }
    requires size { AllWithin 16 9180 spectrum.now }
    ensures value { result ≡ levels_without_dc kind intra qp spectrum.now }
    ensures small { AllWithin 16 8191 result }
    ensures made { AllMade4 kind intra qp result }
{
    let mut coefficients = *spectrum;
    coefficients[0] = 0;
    quantise4(kind, intra, qp, &coefficients).levels
}

/// The samples of a 4x4 block whose DC coefficient is given apart from its levels.
#[inline(always)]
pub fn built_with_dc(
    kind: BlockKind,
    qp: u8,
    dc: i32,
    levels: &[i16; 16],
    prediction: &[u8; 16],
) -> [u8; 16]
    requires in_range { qp ≤ 51 }
    requires of_kind { places kind ≡ 16 }
    requires quantised { IsQuantised kind qp levels.now }
    requires dc { Within 1048576 dc }
    ensures { result ≡ built_with_dc kind qp dc levels.now prediction.now }
{
    let mut coefficients = rescaled4(kind, qp, levels);
    coefficients[0] = dc;
    constructed(prediction, &inverse4(&coefficients))
}
