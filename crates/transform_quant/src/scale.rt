// What a decoder makes of levels.
ghost use Rattle.std.specs.Prelude.{◌≡◌, ◌≤◌, ◌<◌, ◌+◌, ◌*◌, ◌/◌, ◌%◌, ◌^◌, ℕ, pos, ◌*ℤ◌, Bool};
ghost use Rattle.spec_residual.specs.Blocks.{AllWithin, item};
ghost use Rattle.spec_basics.specs.Bounds.{Within};
ghost use Rattle.spec_residual.specs.Levels.{IsMade, places};
ghost use Rattle.spec_residual.specs.declared.BlockKind.TheVariants.{ChromaDc, LumaDc};
ghost use Rattle.spec_residual.specs.Rescaled.{chroma_dc_rescaled, luma_dc_rescaled, quarter_scaled, rescaled, scaling};

use crate::edges::widened;
use crate::hadamard::{hadamard2, hadamard4};
use crate::quant::power_of_two;
use crate::tables::{class4, class8, scaling4, scaling8};
use spec_residual::BlockKind;
use whole_numbers::Whole;

#[inline(always)]
#[tactic(auto, unfolding(spec_residual::specs::Rescaled::scaling))]
fn scaling_of(kind: BlockKind, qp: u8, place: u8) -> u32
    requires { place < places kind }
    ensures value { result ≡ scaling kind qp place }
    ensures small { result ≤ 58 }
{
    match kind {
        BlockKind::Luma4 => scaling4(qp, class4(place)),
        BlockKind::Luma8 => scaling8(qp, class8(place)),
        BlockKind::LumaDc => scaling4(qp, 0),
        BlockKind::Chroma4 => scaling4(qp, class4(place)),
        BlockKind::ChromaDc => scaling4(qp, 0),
    }
}

// x·factor·2^period
#[inline(always)]
fn times(x: Whole, factor: u32, period: u32) -> Whole
    requires in_x { Within 131056 x }
    requires in_factor { factor ≤ 58 }
    requires in_period { period ≤ 8 }
    ensures value { result ≡ x *ℤ pos (factor * 2 ^ period) }
    ensures size { Within 1945919488 result }
{
    x.scaled(factor * power_of_two(period))
}

// x·factor·2^period / 4, rounded
#[inline(always)]
fn quarter_times(x: Whole, factor: u32, period: u32) -> Whole
    requires in_x { Within 131056 x }
    requires in_factor { factor ≤ 58 }
    requires in_period { period ≤ 8 }
    ensures value { result ≡ quarter_scaled period (x *ℤ pos factor) }
    ensures size { Within 1945919488 result }
{
    let product = x.scaled(factor);
    match period {
        0 => product.quartered(),
        1 => product.halved(),
        _ => product.scaled(power_of_two(period - 2)),
    }
}

#[inline(always)]
#[tactic(auto, unfolding(spec_residual::specs::Rescaled::rescaled))]
fn coefficient(kind: BlockKind, qp: u8, place: u8, x: Whole) -> Whole
    requires in_range { qp ≤ 51 }
    requires inside { place < places kind }
    requires size { Within 131056 x }
    ensures value { result ≡ rescaled kind qp place x }
    ensures size { Within 1945919488 result }
{
    let factor = scaling_of(kind, qp, place);
    let period = (qp / 6) as u32;
    match kind {
        BlockKind::Luma4 => times(x, factor, period),
        BlockKind::Luma8 => quarter_times(x, factor, period),
        BlockKind::LumaDc => quarter_times(x, factor, period),
        BlockKind::Chroma4 => times(x, factor, period),
        BlockKind::ChromaDc => times(x, factor, period).half(),
    }
}

// What sums of DC levels are rescaled to.
#[inline(always)]
fn coefficients<const N: usize>(kind: BlockKind, qp: u8, sums: &[Whole; N]) -> [i32; N]
    requires in_range { qp ≤ 51 }
    requires inside { N ≤ places kind }
    requires few { N ≤ 64 }
    requires size { AllWithin N 131056 sums.now }
    ensures { (p : ℕ) → p < N → item result p ≡ rescaled kind qp p (item sums.now p) }
{
    let mut out = [0i32; N];
    for p in 0..N {
        out[p] = coefficient(kind, qp, p as u8, sums[p]).get();
    }
    out
}

/// The coefficient that a decoder makes of a level at a place, which counts row by row (ITU-T H.264, clauses 8.5.12.1
/// and 8.5.13.1, with flat scaling lists). For chroma the parameter is the chroma parameter. DC levels have calls of
/// their own.
#[inline(always)]
pub fn rescale(kind: BlockKind, qp: u8, place: u8, level: i32) -> i32
    requires in_range { qp ≤ 51 }
    requires inside { place < places kind }
    requires size { Within 8191 level }
    ensures value { result ≡ rescaled kind qp place level }
    ensures small { (intra : Bool) → IsMade kind intra qp place level → Within 1048576 result }
{
    coefficient(kind, qp, place, Whole::new(level)).get()
}

/// The first coefficients of the sixteen 4x4 blocks of an Intra 16x16 macroblock from its DC levels, both row by row
/// (clause 8.5.10).
pub fn rescale_luma_dc(qp: u8, levels: &[i16; 16]) -> [i32; 16]
    requires in_range { qp ≤ 51 }
    requires size { AllWithin 16 8191 levels.now }
    ensures value { result ≡ luma_dc_rescaled qp levels.now }
    ensures small { (intra : Bool) → ((p : ℕ) → p < 16 → IsMade LumaDc intra qp p (item levels.now p)) → AllWithin 16 1048576 result }
{
    coefficients(BlockKind::LumaDc, qp, &hadamard4(&widened(levels)))
}

/// The first coefficients of the four 4x4 blocks of a chroma component from its DC levels, both row by row
/// (clause 8.5.11), where `qp` is the chroma parameter.
pub fn rescale_chroma_dc(qp: u8, levels: &[i16; 4]) -> [i32; 4]
    requires in_range { qp ≤ 51 }
    requires size { AllWithin 4 8191 levels.now }
    ensures value { result ≡ chroma_dc_rescaled qp levels.now }
    ensures small { (intra : Bool) → ((p : ℕ) → p < 4 → IsMade ChromaDc intra qp p (item levels.now p)) → AllWithin 4 1048576 result }
{
    coefficients(BlockKind::ChromaDc, qp, &hadamard2(widened(levels)))
}
