// The inverse 8x8 transform.
ghost use Rattle.std.specs.Prelude.{◌≡◌, ◌<◌, ◌+◌, ◌*◌, ℕ, ℤ, pos, ◌+ℤ◌, ◌-ℤ◌, ◌*ℤ◌, ◌≤ℤ◌, length, List, [], ◌∷◌};
ghost use Rattle.spec_basics.specs.Bounds.{Within};
ghost use Rattle.spec_residual.specs.Blocks.{AllWithin, item};
ghost use Rattle.spec_residual.specs.Inverse.{half, quarter, inverse8_of, odd1, odd3, odd5, odd7, ends8, last8, line8};
ghost use Rattle.transform_quant.specs.Lines.{row8_by, Turned8};

use crate::edges::{coefs, sixty_fourths};
use crate::turn::put_column8;
use whole_numbers::Whole;

#[inline(always)]
fn odd1(d3: Whole, d5: Whole, d7: Whole) -> Whole
    requires in_3 { Within 33554432 d3 }
    requires in_5 { Within 33554432 d5 }
    requires in_7 { Within 33554432 d7 }
    ensures value { result ≡ odd1 d3 d5 d7 }
    ensures size { Within 120000000 result }
{
    d5.minus(d3).minus(d7).minus(d7.half())
}

// Four sums and four differences.
#[inline(always)]
fn ends(
    f0: Whole,
    f1: Whole,
    f2: Whole,
    f3: Whole,
    f4: Whole,
    f5: Whole,
    f6: Whole,
    f7: Whole,
) -> [Whole; 8]
    requires in_0 { Within 240000000 f0 }
    requires in_1 { Within 240000000 f1 }
    requires in_2 { Within 240000000 f2 }
    requires in_3 { Within 240000000 f3 }
    requires in_4 { Within 240000000 f4 }
    requires in_5 { Within 240000000 f5 }
    requires in_6 { Within 240000000 f6 }
    requires in_7 { Within 240000000 f7 }
    ensures { result ≡ ends8 f0 f1 f2 f3 f4 f5 f6 f7 }
{
    [
        f0.plus(f7),
        f2.plus(f5),
        f4.plus(f3),
        f6.plus(f1),
        f6.minus(f1),
        f4.minus(f3),
        f2.minus(f5),
        f0.minus(f7),
    ]
}

#[inline(always)]
fn odd3(d1: Whole, d3: Whole, d7: Whole) -> Whole
    requires in_1 { Within 33554432 d1 }
    requires in_3 { Within 33554432 d3 }
    requires in_7 { Within 33554432 d7 }
    ensures value { result ≡ odd3 d1 d3 d7 }
    ensures size { Within 120000000 result }
{
    d1.plus(d7).minus(d3).minus(d3.half())
}

#[inline(always)]
fn odd5(d1: Whole, d5: Whole, d7: Whole) -> Whole
    requires in_1 { Within 33554432 d1 }
    requires in_5 { Within 33554432 d5 }
    requires in_7 { Within 33554432 d7 }
    ensures value { result ≡ odd5 d1 d5 d7 }
    ensures size { Within 120000000 result }
{
    d7.minus(d1).plus(d5).plus(d5.half())
}

#[inline(always)]
fn odd7(d1: Whole, d3: Whole, d5: Whole) -> Whole
    requires in_1 { Within 33554432 d1 }
    requires in_3 { Within 33554432 d3 }
    requires in_5 { Within 33554432 d5 }
    ensures value { result ≡ odd7 d1 d3 d5 }
    ensures size { Within 120000000 result }
{
    d3.plus(d5).plus(d1).plus(d1.half())
}

#[inline(always)]
fn with_quarter(x: Whole, y: Whole) -> Whole
    requires in_x { Within 120000000 x }
    requires in_y { Within 120000000 y }
    ensures value { result ≡ x +ℤ quarter y }
    ensures size { Within 150000000 result }
{
    x.plus(y.quarter())
}

#[inline(always)]
fn less_quarter(x: Whole, y: Whole) -> Whole
    requires in_x { Within 120000000 x }
    requires in_y { Within 120000000 y }
    ensures value { result ≡ x -ℤ quarter y }
    ensures size { Within 150000000 result }
{
    x.minus(y.quarter())
}

#[inline(always)]
fn quarter_less(x: Whole, y: Whole) -> Whole
    requires in_x { Within 120000000 x }
    requires in_y { Within 120000000 y }
    ensures value { result ≡ quarter x -ℤ y }
    ensures size { Within 150000000 result }
{
    x.quarter().minus(y)
}

// The last stage of a line.
#[inline(always)]
fn last(
    e0: Whole,
    e1: Whole,
    e2: Whole,
    e3: Whole,
    e4: Whole,
    e5: Whole,
    e6: Whole,
    e7: Whole,
) -> [Whole; 8]
    requires in_0 { Within 120000000 e0 }
    requires in_1 { Within 120000000 e1 }
    requires in_2 { Within 120000000 e2 }
    requires in_3 { Within 120000000 e3 }
    requires in_4 { Within 120000000 e4 }
    requires in_5 { Within 120000000 e5 }
    requires in_6 { Within 120000000 e6 }
    requires in_7 { Within 120000000 e7 }
    ensures { result ≡ last8 e0 e1 e2 e3 e4 e5 e6 e7 }
{
    ends(
        e0.plus(e6),
        with_quarter(e1, e7),
        e2.plus(e4),
        with_quarter(e3, e5),
        e2.minus(e4),
        quarter_less(e3, e5),
        e0.minus(e6),
        less_quarter(e7, e1),
    )
}

#[inline(always)]
fn even(d0: Whole, d2: Whole, d4: Whole, d6: Whole) -> (Whole, Whole, Whole, Whole)
    requires in_0 { Within 33554432 d0 }
    requires in_2 { Within 33554432 d2 }
    requires in_4 { Within 33554432 d4 }
    requires in_6 { Within 33554432 d6 }
    ensures first { result.0 ≡ d0 +ℤ d4 }
    ensures second { result.1 ≡ d0 -ℤ d4 }
    ensures third { result.2 ≡ half d2 -ℤ d6 }
    ensures fourth { result.3 ≡ d2 +ℤ half d6 }
    ensures first_size { Within 120000000 result.0 }
    ensures second_size { Within 120000000 result.1 }
    ensures third_size { Within 120000000 result.2 }
    ensures fourth_size { Within 120000000 result.3 }
{
    (
        d0.plus(d4),
        d0.minus(d4),
        d2.half().minus(d6),
        d2.plus(d6.half()),
    )
}

// One line of the inverse transform.
#[inline(always)]
fn inverse8_line(
    d0: Whole,
    d1: Whole,
    d2: Whole,
    d3: Whole,
    d4: Whole,
    d5: Whole,
    d6: Whole,
    d7: Whole,
) -> [Whole; 8]
    requires in_0 { Within 33554432 d0 }
    requires in_1 { Within 33554432 d1 }
    requires in_2 { Within 33554432 d2 }
    requires in_3 { Within 33554432 d3 }
    requires in_4 { Within 33554432 d4 }
    requires in_5 { Within 33554432 d5 }
    requires in_6 { Within 33554432 d6 }
    requires in_7 { Within 33554432 d7 }
    ensures { result ≡ line8 d0 d1 d2 d3 d4 d5 d6 d7 }
{
    let (e0, e2, e4, e6) = even(d0, d2, d4, d6);
    last(
        e0,
        odd1(d3, d5, d7),
        e2,
        odd3(d1, d3, d7),
        e4,
        odd5(d1, d5, d7),
        e6,
        odd7(d1, d3, d5),
    )
}

#[inline(always)]
fn inverse8_pass(x: &[Whole; 64]) -> [Whole; 64]
    requires { AllWithin 64 33554432 x.now }
    ensures { Turned8 (row8_by line8 x.now) result }
{
    let mut out = [Whole::new(0); 64];
    for i in 0..8usize {
        let k = 8 * i;
        let line = inverse8_line(
            x[k],
            x[k + 1],
            x[k + 2],
            x[k + 3],
            x[k + 4],
            x[k + 5],
            x[k + 6],
            x[k + 7],
        );
        put_column8(&mut out, i, line);
    }
    out
}

/// The inverse 8x8 transform of coefficients, row by row (ITU-T H.264, clause 8.5.13.2): what is added to the
/// prediction.
pub fn inverse8(c: &[i32; 64]) -> [i32; 64]
    requires { AllWithin 64 1048576 c.now }
    ensures { result ≡ inverse8_of c.now }
{
    let rows = inverse8_pass(&coefs(c));
    sixty_fourths(&inverse8_pass(&rows))
}
