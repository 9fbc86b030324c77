// The forward 8x8 transform.
ghost use Rattle.std.specs.Prelude.{◌≡◌, ◌<◌, ◌+◌, ◌*◌, ℕ, ℤ, pos, ◌+ℤ◌, ◌-ℤ◌, ◌*ℤ◌, length, List, [], ◌∷◌};
ghost use Rattle.spec_basics.specs.Bounds.{Within};
ghost use Rattle.spec_residual.specs.Blocks.{AllWithin, item};
ghost use Rattle.spec_residual.specs.Forward.{forward8_of};
ghost use Rattle.transform_quant.specs.Lines.{forward8_line, parts8_of, row0_of, row1_of, row2_of, row3_of, row4_of, row5_of, row6_of, row7_of, row8_by, Turned8};

use crate::edges::{sixty_fourths, widened};
use crate::turn::put_column8;
use whole_numbers::Whole;

#[inline(always)]
fn row0(s0: Whole, s1: Whole, s2: Whole, s3: Whole) -> Whole
    requires in_0 { Within 200000 s0 }
    requires in_1 { Within 200000 s1 }
    requires in_2 { Within 200000 s2 }
    requires in_3 { Within 200000 s3 }
    ensures { result ≡ row0_of s0 s1 s2 s3 }
{
    s0.plus(s3).plus(s1.plus(s2)).times(8)
}

#[inline(always)]
fn row1(d0: Whole, d1: Whole, d2: Whole, d3: Whole) -> Whole
    requires in_0 { Within 200000 d0 }
    requires in_1 { Within 200000 d1 }
    requires in_2 { Within 200000 d2 }
    requires in_3 { Within 200000 d3 }
    ensures { result ≡ row1_of d0 d1 d2 d3 }
{
    d0.times(12)
        .plus(d1.times(10))
        .plus(d2.times(6).plus(d3.times(3)))
}

#[inline(always)]
fn row2(s0: Whole, s1: Whole, s2: Whole, s3: Whole) -> Whole
    requires in_0 { Within 200000 s0 }
    requires in_1 { Within 200000 s1 }
    requires in_2 { Within 200000 s2 }
    requires in_3 { Within 200000 s3 }
    ensures { result ≡ row2_of s0 s1 s2 s3 }
{
    s0.minus(s3).times(8).plus(s1.minus(s2).times(4))
}

#[inline(always)]
fn row3(d0: Whole, d1: Whole, d2: Whole, d3: Whole) -> Whole
    requires in_0 { Within 200000 d0 }
    requires in_1 { Within 200000 d1 }
    requires in_2 { Within 200000 d2 }
    requires in_3 { Within 200000 d3 }
    ensures { result ≡ row3_of d0 d1 d2 d3 }
{
    d0.times(10)
        .minus(d1.times(3))
        .minus(d2.times(12).plus(d3.times(6)))
}

#[inline(always)]
fn row4(s0: Whole, s1: Whole, s2: Whole, s3: Whole) -> Whole
    requires in_0 { Within 200000 s0 }
    requires in_1 { Within 200000 s1 }
    requires in_2 { Within 200000 s2 }
    requires in_3 { Within 200000 s3 }
    ensures { result ≡ row4_of s0 s1 s2 s3 }
{
    s0.plus(s3).minus(s1.plus(s2)).times(8)
}

#[inline(always)]
fn row5(d0: Whole, d1: Whole, d2: Whole, d3: Whole) -> Whole
    requires in_0 { Within 200000 d0 }
    requires in_1 { Within 200000 d1 }
    requires in_2 { Within 200000 d2 }
    requires in_3 { Within 200000 d3 }
    ensures { result ≡ row5_of d0 d1 d2 d3 }
{
    d0.times(6)
        .minus(d1.times(12))
        .plus(d2.times(3).plus(d3.times(10)))
}

#[inline(always)]
fn row6(s0: Whole, s1: Whole, s2: Whole, s3: Whole) -> Whole
    requires in_0 { Within 200000 s0 }
    requires in_1 { Within 200000 s1 }
    requires in_2 { Within 200000 s2 }
    requires in_3 { Within 200000 s3 }
    ensures { result ≡ row6_of s0 s1 s2 s3 }
{
    s0.minus(s3).times(4).minus(s1.minus(s2).times(8))
}

#[inline(always)]
fn row7(d0: Whole, d1: Whole, d2: Whole, d3: Whole) -> Whole
    requires in_0 { Within 200000 d0 }
    requires in_1 { Within 200000 d1 }
    requires in_2 { Within 200000 d2 }
    requires in_3 { Within 200000 d3 }
    ensures { result ≡ row7_of d0 d1 d2 d3 }
{
    d0.times(3)
        .minus(d1.times(6))
        .plus(d2.times(10).minus(d3.times(12)))
}

#[inline(always)]
fn parts8(
    s0: Whole,
    s1: Whole,
    s2: Whole,
    s3: Whole,
    d0: Whole,
    d1: Whole,
    d2: Whole,
    d3: Whole,
) -> [Whole; 8]
    requires in_s0 { Within 200000 s0 }
    requires in_s1 { Within 200000 s1 }
    requires in_s2 { Within 200000 s2 }
    requires in_s3 { Within 200000 s3 }
    requires in_d0 { Within 200000 d0 }
    requires in_d1 { Within 200000 d1 }
    requires in_d2 { Within 200000 d2 }
    requires in_d3 { Within 200000 d3 }
    ensures { result ≡ parts8_of s0 s1 s2 s3 d0 d1 d2 d3 }
{
    [
        row0(s0, s1, s2, s3),
        row1(d0, d1, d2, d3),
        row2(s0, s1, s2, s3),
        row3(d0, d1, d2, d3),
        row4(s0, s1, s2, s3),
        row5(d0, d1, d2, d3),
        row6(s0, s1, s2, s3),
        row7(d0, d1, d2, d3),
    ]
}

// A row of eight through the rows of the 8x8 transform.
#[inline(always)]
fn forward8_line(
    x0: Whole,
    x1: Whole,
    x2: Whole,
    x3: Whole,
    x4: Whole,
    x5: Whole,
    x6: Whole,
    x7: Whole,
) -> [Whole; 8]
    requires in_0 { Within 100000 x0 }
    requires in_1 { Within 100000 x1 }
    requires in_2 { Within 100000 x2 }
    requires in_3 { Within 100000 x3 }
    requires in_4 { Within 100000 x4 }
    requires in_5 { Within 100000 x5 }
    requires in_6 { Within 100000 x6 }
    requires in_7 { Within 100000 x7 }
    ensures { result ≡ forward8_line x0 x1 x2 x3 x4 x5 x6 x7 }
{
    parts8(
        x0.plus(x7),
        x1.plus(x6),
        x2.plus(x5),
        x3.plus(x4),
        x0.minus(x7),
        x1.minus(x6),
        x2.minus(x5),
        x3.minus(x4),
    )
}

#[inline(always)]
fn forward8_pass(x: &[Whole; 64]) -> [Whole; 64]
    requires { AllWithin 64 100000 x.now }
    ensures { Turned8 (row8_by forward8_line x.now) result }
{
    let mut out = [Whole::new(0); 64];
    for i in 0..8usize {
        let k = 8 * i;
        let line = forward8_line(
            x[k],
            x[k + 1],
            x[k + 2],
            x[k + 3],
            x[k + 4],
            x[k + 5],
            x[k + 6],
            x[k + 7],
        );
        put_column8(&mut out, i, line);
    }
    out
}

/// The forward transform (C·X·Cᵀ + 32) >> 6 of an 8x8 block of differences, row by row; each difference is at most 255
/// in size. Its inverse is that of ITU-T H.264, clause 8.5.13.2.
pub fn forward8(r: &[i16; 64]) -> [i32; 64]
    requires { AllWithin 64 255 r.now }
    ensures value { result ≡ forward8_of r.now }
    ensures small { AllWithin 64 16320 result }
{
    let rows = forward8_pass(&widened(r));
    sixty_fourths(&forward8_pass(&rows))
}
