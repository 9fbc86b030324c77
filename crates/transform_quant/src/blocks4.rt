// The quantiser and rescaling of whole 4x4 blocks, row by row.
ghost use Rattle.std.specs.Prelude.{◌≡◌, ◌≤◌, ◌<◌, ◌+◌, ◌*◌, ◌/◌, ◌%◌, ◌^◌, ℕ, pos, ◌*ℤ◌, Bool, slice_index, [], ◌∷◌};
ghost use Rattle.enc_tables.specs.declared.transform.TheConstants.{CLASS4, SCALING4};
ghost use Rattle.spec_residual.specs.Blocks.{AllWithin, item, in_table};
ghost use Rattle.spec_residual.specs.Levels.{greatest, IsMade, level_of, multiplier, places, signed_level};
ghost use Rattle.spec_residual.specs.Rescaled.{rescaled};
ghost use Rattle.spec_residual.specs.declared.BlockKind.TheVariants.{Chroma4, Luma4};

use crate::quant::{power_of_two, rounding_of, shift_of, signed_level};
use crate::tables::{multiplier4, scaling4};
use spec_residual::BlockKind;
use whole_numbers::Whole;

// For each place, row by row, what belongs to its class.
#[inline(always)]
fn by_class(even: u32, odd: u32, mixed: u32) -> [u32; 16]
    ensures { (p : ℕ) → p < 16 → slice_index result p ≡ slice_index (even ∷ odd ∷ mixed ∷ []) (slice_index CLASS4 p) }
{
    [
        even, mixed, even, mixed, mixed, odd, mixed, odd, even, mixed, even, mixed, mixed, odd,
        mixed, odd,
    ]
}

#[inline(always)]
#[tactic(auto, unfolding(spec_residual::specs::Levels::multiplier))]
fn multipliers(kind: BlockKind, qp: u8) -> [u32; 16]
    requires { places kind ≡ 16 }
    ensures { (p : ℕ) → p < 16 → slice_index result p ≡ multiplier kind qp p }
{
    let even = multiplier4(qp, 0);
    match kind {
        BlockKind::LumaDc => by_class(even, even, even),
        _ => by_class(even, multiplier4(qp, 1), multiplier4(qp, 2)),
    }
}

#[inline(always)]
fn signed_levels(c: &[i32; 16], multipliers: &[u32; 16], rounding: u32, shift: u32) -> [i16; 16]
    requires in_c { AllWithin 16 65280 c.now }
    requires in_multipliers { (p : ℕ) → p < 16 → slice_index multipliers.now p ≤ 20972 }
    requires in_rounding { rounding ≤ 16777216 }
    requires in_shift { shift ≤ 24 }
    requires fits { (p : ℕ) → p < 16 → (65280 * slice_index multipliers.now p + rounding) / 2 ^ shift ≤ 32767 }
    ensures { (p : ℕ) → p < 16 → item result p ≡ signed_level (slice_index multipliers.now p) rounding shift (item c.now p) }
{
    let mut levels = [0i16; 16];
    for p in 0..16usize {
        levels[p] = signed_level(c[p], multipliers[p], rounding, shift);
    }
    levels
}

/// The levels of sixteen coefficients, both row by row: of a 4x4 block, or of luma DC coefficients. For chroma the
/// parameter is the chroma parameter.
#[inline(always)]
pub fn levels4(kind: BlockKind, intra: bool, qp: u8, c: &[i32; 16]) -> [i16; 16]
    requires in_range { qp ≤ 51 }
    requires of_kind { places kind ≡ 16 }
    requires size { AllWithin 16 65280 c.now }
    ensures value { (p : ℕ) → p < 16 → item result p ≡ level_of kind intra qp p (item c.now p) }
    ensures small { AllWithin 16 (greatest kind) c.now → AllWithin 16 8191 result }
{
    signed_levels(
        c,
        &multipliers(kind, qp),
        rounding_of(kind, intra, qp),
        shift_of(kind, qp),
    )
}

#[inline(always)]
fn factor(qp: u8, class: usize) -> u32
    requires in_range { qp ≤ 51 }
    requires inside { class < 3 }
    ensures value { result ≡ in_table SCALING4 (qp % 6) class * 2 ^ (qp / 6) }
    ensures small { result ≤ 14848 }
{
    scaling4(qp, class) * power_of_two((qp / 6) as u32)
}

#[inline(always)]
fn factors(qp: u8) -> [u32; 16]
    requires { qp ≤ 51 }
    ensures value { (p : ℕ) → p < 16 → slice_index result p ≡ in_table SCALING4 (qp % 6) (slice_index CLASS4 p) * 2 ^ (qp / 6) }
    ensures small { (p : ℕ) → p < 16 → slice_index result p ≤ 14848 }
{
    by_class(factor(qp, 0), factor(qp, 1), factor(qp, 2))
}

#[inline(always)]
fn products(levels: &[i16; 16], factors: &[u32; 16]) -> [i32; 16]
    requires in_levels { AllWithin 16 8191 levels.now }
    requires in_factors { (p : ℕ) → p < 16 → slice_index factors.now p ≤ 14848 }
    ensures { (p : ℕ) → p < 16 → item result p ≡ item levels.now p *ℤ pos (slice_index factors.now p) }
{
    let mut out = [0i32; 16];
    for p in 0..16usize {
        out[p] = Whole::new(levels[p] as i32).scaled(factors[p]).get();
    }
    out
}

/// The coefficients that a decoder makes of the levels of a 4x4 block, both row by row (ITU-T H.264, clause 8.5.12.1,
/// with flat scaling lists). For chroma the parameter is the chroma parameter.
#[inline(always)]
pub fn rescale4(qp: u8, levels: &[i16; 16]) -> [i32; 16]
    requires in_range { qp ≤ 51 }
    requires size { AllWithin 16 8191 levels.now }
    ensures luma { (p : ℕ) → p < 16 → item result p ≡ rescaled Luma4 qp p (item levels.now p) }
    ensures chroma { (p : ℕ) → p < 16 → item result p ≡ rescaled Chroma4 qp p (item levels.now p) }
    ensures small { (intra : Bool) → ((p : ℕ) → p < 16 → IsMade Luma4 intra qp p (item levels.now p)) → AllWithin 16 1048576 result }
{
    products(levels, &factors(qp))
}
