// The quantiser.
ghost use Rattle.std.specs.Prelude.{◌≡◌, ◌≤◌, ◌<◌, ◌+◌, ◌*◌, ◌/◌, ◌%◌, ◌^◌};
ghost use Rattle.spec_basics.specs.Bounds.{Within};
ghost use Rattle.spec_residual.specs.Levels.{greatest, level_of, multiplier, places, rounding, share, shift, signed_level};

use crate::tables::{class4, class8, multiplier4, multiplier8};
use spec_residual::BlockKind;

#[inline(always)]
#[tactic(auto, unfolding(spec_residual::specs::Levels::multiplier))]
fn multiplier_of(kind: BlockKind, qp: u8, place: u8) -> u32
    requires { place < places kind }
    ensures { result ≡ multiplier kind qp place }
{
    match kind {
        BlockKind::Luma4 => multiplier4(qp, class4(place)),
        BlockKind::Luma8 => multiplier8(qp, class8(place)),
        BlockKind::LumaDc => multiplier4(qp, 0),
        BlockKind::Chroma4 => multiplier4(qp, class4(place)),
        BlockKind::ChromaDc => multiplier4(qp, 0),
    }
}

#[inline(always)]
#[tactic(auto, unfolding(spec_residual::specs::Levels::shift))]
pub fn shift_of(kind: BlockKind, qp: u8) -> u32
    requires { qp ≤ 51 }
    ensures value { result ≡ shift kind qp }
    ensures small { result ≤ 24 }
{
    let period = (qp / 6) as u32;
    match kind {
        BlockKind::Luma4 => 15 + period,
        BlockKind::Luma8 => 16 + period,
        BlockKind::LumaDc => 16 + period,
        BlockKind::Chroma4 => 15 + period,
        BlockKind::ChromaDc => 16 + period,
    }
}

#[inline(always)]
fn share(intra: bool, step: u32) -> u32
    ensures { result ≡ share intra step }
{
    if intra { step / 3 } else { step / 6 }
}

#[inline(always)]
pub fn power_of_two(n: u32) -> u32
    requires { n ≤ 24 }
    ensures value { result ≡ 2 ^ n }
    ensures small { result ≤ 16777216 }
{
    1 << n
}

#[inline(always)]
#[tactic(auto, unfolding(spec_residual::specs::Levels::rounding))]
pub fn rounding_of(kind: BlockKind, intra: bool, qp: u8) -> u32
    requires { qp ≤ 51 }
    ensures { result ≡ rounding kind intra qp }
{
    let period = (qp / 6) as u32;
    match kind {
        BlockKind::Luma4 => share(intra, power_of_two(15 + period)),
        BlockKind::Luma8 => share(intra, power_of_two(16 + period)),
        BlockKind::LumaDc => 2 * share(intra, power_of_two(15 + period)),
        BlockKind::Chroma4 => share(intra, power_of_two(15 + period)),
        BlockKind::ChromaDc => 2 * share(intra, power_of_two(15 + period)),
    }
}

#[inline(always)]
fn level_size(c: u32, multiplier: u32, rounding: u32, shift: u32) -> u32
    requires in_c { c ≤ 65280 }
    requires in_multiplier { multiplier ≤ 20972 }
    requires in_rounding { rounding ≤ 16777216 }
    requires in_shift { shift ≤ 24 }
    requires fits { (65280 * multiplier + rounding) / 2 ^ shift ≤ 32767 }
    ensures value { result ≡ (c * multiplier + rounding) / 2 ^ shift }
    ensures small { result ≤ 32767 }
{
    (c * multiplier + rounding) >> shift
}

#[inline(always)]
pub fn signed_level(c: i32, multiplier: u32, rounding: u32, shift: u32) -> i16
    requires in_c { Within 65280 c }
    requires in_multiplier { multiplier ≤ 20972 }
    requires in_rounding { rounding ≤ 16777216 }
    requires in_shift { shift ≤ 24 }
    requires fits { (65280 * multiplier + rounding) / 2 ^ shift ≤ 32767 }
    ensures { result ≡ signed_level multiplier rounding shift c }
{
    let size = level_size(c.unsigned_abs(), multiplier, rounding, shift) as i16;
    if c < 0 { -size } else { size }
}

/// The level of a transform coefficient: its sign times (|c|·m + f) >> s, where m is the multiplier of the parameter,
/// the kind of block and the place, and f is a third of the step for intra macroblocks and a sixth for inter
/// macroblocks. The place counts row by row. For chroma the parameter is the chroma parameter.
#[inline(always)]
pub fn quantise(kind: BlockKind, intra: bool, qp: u8, place: u8, c: i32) -> i16
    requires in_range { qp ≤ 51 }
    requires inside { place < places kind }
    requires size { Within 65280 c }
    ensures value { result ≡ level_of kind intra qp place c }
    ensures small { Within (greatest kind) c → Within 8191 result }
{
    signed_level(
        c,
        multiplier_of(kind, qp, place),
        rounding_of(kind, intra, qp),
        shift_of(kind, qp),
    )
}
