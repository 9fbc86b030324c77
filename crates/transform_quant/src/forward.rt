// The forward transforms.
ghost use Rattle.std.specs.Prelude.{◌≡◌, ◌≤◌, ◌<◌, ◌+◌, ◌*◌, ℕ, ℤ, pos, ◌+ℤ◌, ◌-ℤ◌, ◌*ℤ◌, length, List, [], ◌∷◌};
ghost use Rattle.spec_basics.specs.Bounds.{Within};
ghost use Rattle.spec_residual.specs.Blocks.{AllWithin, item};
ghost use Rattle.spec_residual.specs.Forward.{forward4_of};
ghost use Rattle.transform_quant.specs.Lines.{forward4_line, row4_by, Turned4};

use crate::edges::{numbers, widened};
use crate::turn::put_column4;
use whole_numbers::Whole;

// A row of four through the rows of the 4x4 transform.
#[inline(always)]
fn forward4_line(x0: Whole, x1: Whole, x2: Whole, x3: Whole) -> [Whole; 4]
    requires in_0 { Within 100000 x0 }
    requires in_1 { Within 100000 x1 }
    requires in_2 { Within 100000 x2 }
    requires in_3 { Within 100000 x3 }
    ensures { result ≡ forward4_line x0 x1 x2 x3 }
{
    let (outer, inner) = (x0.plus(x3), x1.plus(x2));
    let (far, near) = (x0.minus(x3), x1.minus(x2));
    [
        outer.plus(inner),
        far.times(2).plus(near),
        outer.minus(inner),
        far.minus(near.times(2)),
    ]
}

#[inline(always)]
fn forward4_pass(x: &[Whole; 16]) -> [Whole; 16]
    requires { AllWithin 16 100000 x.now }
    ensures { Turned4 (row4_by forward4_line x.now) result }
{
    let mut out = [Whole::new(0); 16];
    for i in 0..4usize {
        let k = 4 * i;
        let line = forward4_line(x[k], x[k + 1], x[k + 2], x[k + 3]);
        put_column4(&mut out, i, line);
    }
    out
}

/// The forward transform C·X·Cᵀ of a 4x4 block of differences, row by row; each difference is at most 255 in size.
/// Its inverse is that of ITU-T H.264, clause 8.5.12.2.
pub fn forward4(r: &[i16; 16]) -> [i32; 16]
    requires { AllWithin 16 255 r.now }
    ensures value { result ≡ forward4_of r.now }
    ensures small { AllWithin 16 9180 result }
    ensures first { Within 4080 (item result 0) }
{
    let rows = forward4_pass(&widened(r));
    numbers(&forward4_pass(&rows))
}
