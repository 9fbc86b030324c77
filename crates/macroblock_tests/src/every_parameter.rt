// One random 4x4 block and one random 8x8 block at every quantisation parameter, through the quantiser and back.
ghost use Rattle.std.specs.Prelude.{◌≡◌, ◌≤◌, ◌<◌};
ghost use Rattle.spec_residual.specs.Blocks.{AllWithin};
ghost use Rattle.spec_basics.specs.Bounds.{Within};
ghost use Rattle.spec_residual.specs.Levels.{places};

use crate::table::{DIFFERENCES, LEVELS, RESCALED, RESIDUALS, SUMS8};
use transform_quant::{BlockKind, forward4, forward8, inverse4, inverse8, quantise, rescale};

// The calls want numbers of a bounded size, as all of these are: no number of the tables, nor one that agrees with
// them, is changed.
fn bounded(x: i32, bound: u32) -> i32
    requires { bound ≤ 1048576 }
    ensures { Within bound result }
{
    let bound = bound as i32;
    if x > bound {
        bound
    } else if x < -bound {
        -bound
    } else {
        x
    }
}

// The first N differences of the block of a parameter and of those after it.
fn differences<const N: usize>(parameter: usize) -> [i16; N]
    requires in_range { parameter < 52 }
    requires few { N ≤ 64 }
    ensures { AllWithin N 255 result }
{
    let mut out = [0i16; N];
    for p in 0..N {
        let row = &DIFFERENCES[(parameter + p / 16) % 52];
        out[p] = bounded(row[p % 16] as i32, 255) as i16;
    }
    out
}

// The levels of coefficients, both row by row.
fn levels_of<const N: usize>(kind: BlockKind, intra: bool, qp: u8, c: &[i32; N]) -> [i32; N]
    requires in_range { qp ≤ 51 }
    requires inside { N ≤ places kind }
    requires few { N ≤ 64 }
{
    let mut out = [0i32; N];
    for p in 0..N {
        out[p] = quantise(kind, intra, qp, p as u8, bounded(c[p], 65280)) as i32;
    }
    out
}

fn rescaled_of<const N: usize>(kind: BlockKind, qp: u8, levels: &[i32; N]) -> [i32; N]
    requires in_range { qp ≤ 51 }
    requires inside { N ≤ places kind }
    requires few { N ≤ 64 }
    ensures { AllWithin N 1048576 result }
{
    let mut out = [0i32; N];
    for p in 0..N {
        let level = bounded(levels[p], 8191);
        out[p] = bounded(rescale(kind, qp, p as u8, level), 1048576);
    }
    out
}

// The sum of the numbers, each times its place counted from 1.
fn sum_by_place(x: &[i32; 64]) -> i32 {
    let mut sum = 0i32;
    for p in 0..64usize {
        sum = sum.wrapping_add(x[p].wrapping_mul(p as i32 + 1));
    }
    sum
}

fn count_of_nonzero(x: &[i32; 64]) -> i32 {
    let mut count = 0i32;
    for p in 0..64usize {
        if x[p] != 0 {
            count = count.wrapping_add(1);
        }
    }
    count
}

#[test]
fn blocks_4x4(rt: HostRuntime) {
    for qp in 0..52u8 {
        let at = qp as usize;
        let coefficients = forward4(&differences(at));
        let levels = levels_of(BlockKind::Luma4, qp % 2 == 0, qp, &coefficients);
        assert_eq!(rt; levels, LEVELS[at]);
        let rescaled = rescaled_of(BlockKind::Luma4, qp, &levels);
        assert_eq!(rt; rescaled, RESCALED[at]);
        assert_eq!(rt; inverse4(&rescaled), RESIDUALS[at]);
    }
}

#[test]
fn blocks_8x8(rt: HostRuntime) {
    for qp in 0..52u8 {
        let at = qp as usize;
        let coefficients = forward8(&differences(at));
        let levels = levels_of(BlockKind::Luma8, qp % 2 == 1, qp, &coefficients);
        let rescaled = rescaled_of(BlockKind::Luma8, qp, &levels);
        let sums = [
            sum_by_place(&levels),
            count_of_nonzero(&levels),
            sum_by_place(&rescaled),
            sum_by_place(&inverse8(&rescaled)),
        ];
        assert_eq!(rt; sums, SUMS8[at]);
    }
}
