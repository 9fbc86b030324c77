// The Hadamard transforms of DC coefficients.
ghost use Rattle.std.specs.Prelude.{◌≡◌, ◌≤◌, ◌<◌, ◌+◌, ◌*◌, ◌/◌, ◌%◌, ℕ, ℤ, pos, ◌+ℤ◌, ◌-ℤ◌, ◌*ℤ◌, length, List, [], ◌∷◌};
ghost use Rattle.enc_tables.specs.declared.transform.TheConstants.{HADAMARD2, HADAMARD4};
ghost use Rattle.spec_basics.specs.Bounds.{Within};
ghost use Rattle.spec_residual.specs.Blocks.{AllWithin, item, block, transformed, rows_of};
ghost use Rattle.transform_quant.specs.Lines.{hadamard2_sums, hadamard4_line, row4_by, Turned4};

use crate::turn::put_column4;
use whole_numbers::Whole;

#[inline(always)]
fn hadamard4_line(x0: Whole, x1: Whole, x2: Whole, x3: Whole) -> [Whole; 4]
    requires in_0 { Within 100000 x0 }
    requires in_1 { Within 100000 x1 }
    requires in_2 { Within 100000 x2 }
    requires in_3 { Within 100000 x3 }
    ensures { result ≡ hadamard4_line x0 x1 x2 x3 }
{
    let (left, right) = (x0.plus(x1), x2.plus(x3));
    let (left_difference, right_difference) = (x0.minus(x1), x2.minus(x3));
    [
        left.plus(right),
        left.minus(right),
        left_difference.minus(right_difference),
        left_difference.plus(right_difference),
    ]
}

#[inline(always)]
fn hadamard4_pass(x: &[Whole; 16]) -> [Whole; 16]
    requires { AllWithin 16 100000 x.now }
    ensures { Turned4 (row4_by hadamard4_line x.now) result }
{
    let mut out = [Whole::new(0); 16];
    for i in 0..4usize {
        let k = 4 * i;
        let line = hadamard4_line(x[k], x[k + 1], x[k + 2], x[k + 3]);
        put_column4(&mut out, i, line);
    }
    out
}

/// H·X·Hᵀ of a 4x4 block.
#[inline(always)]
pub fn hadamard4(x: &[Whole; 16]) -> [Whole; 16]
    requires { AllWithin 16 25000 x.now }
    ensures value { (p : ℕ) → p < 16 → item result p ≡ transformed 4 (rows_of HADAMARD4) (block 4 x.now) (p / 4) (p % 4) }
    ensures small { (m : ℕ) → AllWithin 16 m x.now → AllWithin 16 (16 * m) result }
{
    hadamard4_pass(&hadamard4_pass(x))
}

/// H·X·Hᵀ of a 2x2 block.
#[inline(always)]
pub fn hadamard2(x: [Whole; 4]) -> [Whole; 4]
    requires { AllWithin 4 100000 x }
    ensures value { (p : ℕ) → p < 4 → item result p ≡ transformed 2 (rows_of HADAMARD2) (block 2 x) (p / 2) (p % 2) }
    ensures small { (m : ℕ) → AllWithin 4 m x → AllWithin 4 (4 * m) result }
{
    hadamard2_sums(x[0], x[1], x[2], x[3])
}

#[inline(always)]
fn hadamard2_sums(x0: Whole, x1: Whole, x2: Whole, x3: Whole) -> [Whole; 4]
    requires in_0 { Within 100000 x0 }
    requires in_1 { Within 100000 x1 }
    requires in_2 { Within 100000 x2 }
    requires in_3 { Within 100000 x3 }
    ensures { result ≡ hadamard2_sums x0 x1 x2 x3 }
{
    let (upper, lower) = (x0.plus(x1), x2.plus(x3));
    let (upper_difference, lower_difference) = (x0.minus(x1), x2.minus(x3));
    [
        upper.plus(lower),
        upper_difference.plus(lower_difference),
        upper.minus(lower),
        upper_difference.minus(lower_difference),
    ]
}
