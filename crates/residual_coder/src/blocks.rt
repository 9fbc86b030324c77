// One block: its levels, and its samples from them.
ghost use Rattle.std.specs.Prelude.{◌≡◌, ◌≤◌, ◌<◌, ◌+◌, ◌*◌, ℕ, Bool, pos, ◌+ℤ◌, ◌-ℤ◌, length, slice_index};
ghost use Rattle.spec_basics.specs.Clip.{clip1};
ghost use Rattle.enc_tables.specs.declared.transform.TheConstants.{ZIGZAG4, ZIGZAG8};
ghost use Rattle.spec_residual.specs.Blocks.{AllWithin, item};
ghost use Rattle.spec_basics.specs.Bounds.{Within};
ghost use Rattle.spec_residual.specs.Levels.{IsMade, places};
ghost use Rattle.spec_residual.specs.declared.BlockKind.TheVariants.{Luma8};
ghost use Rattle.residual_coder.specs.Made.{AllMade4, AllMade8};
ghost use Rattle.spec_reconstruction.specs.Residuals.{coefficients4, coefficients8, constructed, differences};

use enc_tables::{ZIGZAG4, ZIGZAG8};
use spec_residual::BlockKind;
use transform_quant::rescale;

#[inline(always)]
fn difference(source: u8, prediction: u8) -> i16
    ensures value { result ≡ pos source -ℤ pos prediction }
    ensures small { Within 255 result }
{
    source as i16 - prediction as i16
}

/// What a block differs from its prediction.
#[inline(always)]
pub fn differences<const N: usize>(source: &[u8; N], prediction: &[u8; N]) -> [i16; N]
    ensures value { result ≡ differences N source.now prediction.now }
    ensures small { AllWithin N 255 result }
{
    let mut out = [0i16; N];
    for k in 0..N {
        out[k] = difference(source[k], prediction[k]);
    }
    out
}

// A sample from its prediction and its residual.
#[inline(always)]
fn sample_of(prediction: u8, residual: i32) -> u8
    ensures { result ≡ clip1 (pos prediction +ℤ residual) }
{
    if residual < -255 {
        0
    } else if residual > 255 {
        255
    } else {
        let sum = prediction as i32 + residual;
        if sum < 0 {
            0
        } else if sum > 255 {
            255
        } else {
            sum as u8
        }
    }
}

/// Prediction and residual together.
#[inline(always)]
pub fn constructed<const N: usize>(prediction: &[u8; N], residual: &[i32; N]) -> [u8; N]
    ensures { result ≡ constructed N prediction.now residual.now }
{
    let mut out = [0u8; N];
    for k in 0..N {
        out[k] = sample_of(prediction[k], residual[k]);
    }
    out
}

#[inline(always)]
pub fn zigzag4(scan: usize) -> u8
    requires { scan < 16 }
    ensures value { result ≡ slice_index ZIGZAG4 scan }
    ensures inside { result < 16 }
{
    ZIGZAG4[scan]
}

#[inline(always)]
fn zigzag8(scan: usize) -> u8
    requires { scan < 64 }
    ensures value { result ≡ slice_index ZIGZAG8 scan }
    ensures inside { result < 64 }
{
    ZIGZAG8[scan]
}

#[inline(always)]
fn level_at<const N: usize>(levels: &[i16; N], scan: usize) -> i32
    requires { scan < N }
    ensures { result ≡ item levels.now scan }
{
    levels[scan] as i32
}

// The coefficients of a 4x4 block, row by row, from its levels in zigzag order.
#[inline(always)]
pub fn rescaled4(kind: BlockKind, qp: u8, levels: &[i16; 16]) -> [i32; 16]
    requires in_range { qp ≤ 51 }
    requires of_kind { places kind ≡ 16 }
    requires size { AllWithin 16 8191 levels.now }
    ensures value { result ≡ coefficients4 kind qp levels.now }
    ensures small { (intra : Bool) → AllMade4 kind intra qp levels.now → AllWithin 16 1048576 result }
{
    let mut c = [0i32; 16];
    for s in 0..16usize {
        let place = zigzag4(s);
        let level = level_at(levels, s);
        c[place as usize] = rescale(kind, qp, place, level);
    }
    c
}

// The coefficients of an 8x8 luma block, row by row, from its levels in zigzag order.
#[inline(always)]
pub fn rescaled8(qp: u8, levels: &[i16; 64]) -> [i32; 64]
    requires in_range { qp ≤ 51 }
    requires size { AllWithin 64 8191 levels.now }
    ensures value { result ≡ coefficients8 qp levels.now }
    ensures small { (intra : Bool) → AllMade8 intra qp levels.now → AllWithin 64 1048576 result }
{
    let mut c = [0i32; 64];
    for s in 0..64usize {
        let place = zigzag8(s);
        let level = level_at(levels, s);
        c[place as usize] = rescale(BlockKind::Luma8, qp, place, level);
    }
    c
}
