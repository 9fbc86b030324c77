// The inverse transforms.
ghost use Rattle.std.specs.Prelude.{◌≡◌, ◌<◌, ◌+◌, ◌*◌, ◌/◌, ◌%◌, ℕ, ℤ, pos, ◌+ℤ◌, ◌-ℤ◌, ◌*ℤ◌, ◌≤ℤ◌, length, List, [], ◌∷◌};
ghost use Rattle.spec_basics.specs.Bounds.{Within};
ghost use Rattle.spec_residual.specs.Blocks.{AllWithin, item, rounded};
ghost use Rattle.spec_residual.specs.Inverse.{half, quarter, inverse4_of, last4, line4};
ghost use Rattle.transform_quant.specs.Lines.{row4_by, Turned4};

use crate::edges::{coefs, sixty_fourths};
use crate::turn::put_column4;
use whole_numbers::Whole;

#[inline(always)]
fn half_less(x: Whole, y: Whole) -> Whole
    requires in_x { Within 40000000 x }
    requires in_y { Within 40000000 y }
    ensures value { result ≡ half x -ℤ y }
    ensures size { Within 80000000 result }
{
    x.half().minus(y)
}

#[inline(always)]
fn with_half(x: Whole, y: Whole) -> Whole
    requires in_x { Within 40000000 x }
    requires in_y { Within 40000000 y }
    ensures value { result ≡ x +ℤ half y }
    ensures size { Within 80000000 result }
{
    x.plus(y.half())
}

#[inline(always)]
fn sum(x: Whole, y: Whole) -> Whole
    requires in_x { Within 40000000 x }
    requires in_y { Within 40000000 y }
    ensures value { result ≡ x +ℤ y }
    ensures size { Within 80000000 result }
{
    x.plus(y)
}

#[inline(always)]
fn difference(x: Whole, y: Whole) -> Whole
    requires in_x { Within 40000000 x }
    requires in_y { Within 40000000 y }
    ensures value { result ≡ x -ℤ y }
    ensures size { Within 80000000 result }
{
    x.minus(y)
}

#[inline(always)]
fn last4(e0: Whole, e1: Whole, e2: Whole, e3: Whole) -> [Whole; 4]
    requires in_0 { Within 80000000 e0 }
    requires in_1 { Within 80000000 e1 }
    requires in_2 { Within 80000000 e2 }
    requires in_3 { Within 80000000 e3 }
    ensures { result ≡ last4 e0 e1 e2 e3 }
{
    [e0.plus(e3), e1.plus(e2), e1.minus(e2), e0.minus(e3)]
}

#[inline(always)]
fn inverse4_line(d0: Whole, d1: Whole, d2: Whole, d3: Whole) -> [Whole; 4]
    requires in_0 { Within 40000000 d0 }
    requires in_1 { Within 40000000 d1 }
    requires in_2 { Within 40000000 d2 }
    requires in_3 { Within 40000000 d3 }
    ensures { result ≡ line4 d0 d1 d2 d3 }
{
    last4(
        sum(d0, d2),
        difference(d0, d2),
        half_less(d1, d3),
        with_half(d1, d3),
    )
}

#[inline(always)]
fn inverse4_pass(x: &[Whole; 16]) -> [Whole; 16]
    requires { AllWithin 16 40000000 x.now }
    ensures { Turned4 (row4_by line4 x.now) result }
{
    let mut out = [Whole::new(0); 16];
    for i in 0..4usize {
        let k = 4 * i;
        let line = inverse4_line(x[k], x[k + 1], x[k + 2], x[k + 3]);
        put_column4(&mut out, i, line);
    }
    out
}

/// The inverse 4x4 transform of coefficients, row by row (ITU-T H.264, clause 8.5.12.2): what is added to the
/// prediction.
pub fn inverse4(c: &[i32; 16]) -> [i32; 16]
    requires { AllWithin 16 1048576 c.now }
    ensures { result ≡ inverse4_of c.now }
{
    let rows = inverse4_pass(&coefs(c));
    sixty_fourths(&inverse4_pass(&rows))
}
