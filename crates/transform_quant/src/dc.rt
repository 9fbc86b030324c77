// The transforms of DC coefficients.
ghost use Rattle.std.specs.Prelude.{◌≡◌, ◌<◌, ℕ};
ghost use Rattle.spec_residual.specs.Blocks.{AllWithin, item, rounded};
ghost use Rattle.spec_residual.specs.Forward.{chroma_dc_of, luma_dc_of};

use crate::edges::{coefs, halves, numbers};
use crate::hadamard::{hadamard2, hadamard4};
use whole_numbers::Whole;

/// The second transform of an Intra 16x16 macroblock: half of H·X·Hᵀ, rounded, of the first coefficients of its sixteen
/// 4x4 blocks, row by row. Its inverse is that of ITU-T H.264, clause 8.5.10.
pub fn luma_dc(c: &[i32; 16]) -> [i32; 16]
    requires { AllWithin 16 16320 c.now }
    ensures value { result ≡ luma_dc_of c.now }
    ensures small { AllWithin 16 4080 c.now → AllWithin 16 32640 result }
{
    halves(&hadamard4(&coefs(c)))
}

/// The second transform of a chroma component: H·X·Hᵀ of the first coefficients of its four 4x4 blocks, row by row.
/// Its inverse is that of ITU-T H.264, clause 8.5.11.1.
pub fn chroma_dc(c: &[i32; 4]) -> [i32; 4]
    requires { AllWithin 4 16320 c.now }
    ensures value { result ≡ chroma_dc_of c.now }
    ensures small { AllWithin 4 4080 c.now → AllWithin 4 16320 result }
{
    numbers(&hadamard2(coefs(c)))
}
