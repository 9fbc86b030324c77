//! Which level a stream fits (ITU-T H.264, clause A.3), for progressive streams of the High profile.
#![tactic(auto)]

ghost use Rattle.std.specs.Prelude.{◌≡◌, ◌≤◌, ℕ, None, false, IfSome};
ghost use Rattle.spec_levels.specs.Levels.{meets, fits as fits_level, first_level, least_level, IsLeast};

pub use spec_levels::{LEVELS, Need};

// Whether a stream keeps a level's limits.
#[tactic(auto, unfolding(spec_levels::specs::Levels::meets))]
fn keeps(limits: &[u32; 5], need: &Need) -> bool
    ensures { result ≡ meets limits.now need.now }
{
    let [mbs_per_second, frame_mbs, held_mbs, rate, cpb] = *limits;
    let wide = need.width_mbs as u128;
    let high = need.height_mbs as u128;
    let mbs = wide * high;
    let side = 8 * frame_mbs as u128;
    mbs <= frame_mbs as u128
        && wide * wide <= side
        && high * high <= side
        && mbs * need.num as u128 <= mbs_per_second as u128 * need.den as u128
        && need.refs as u128 * mbs <= held_mbs as u128
        && need.rate <= 1500 * rate as u64
        && need.cpb <= 1500 * cpb as u64
}

/// Whether a stream fits a level, which is given by its level_idc; false where there is no such level in the table.
#[tactic(auto, unfolding(spec_levels::specs::Levels::fits))]
pub fn fits(level: u8, need: &Need) -> bool
    ensures { result ≡ fits_level level need.now }
{
    LEVELS
        .iter()
        .any(|(idc, limits)| *idc == level && keeps(limits, need))
}

// The level_idc of the first of these levels that a stream fits.
fn first_of(levels: &[(u8, [u32; 5])], need: &Need) -> Option<u8>
    ensures { result ≡ first_level levels.now need.now }
{
    let mut left = levels;
    while let [level, more @ ..] = left {
        if keeps(&level.1, need) {
            return Some(level.0);
        }
        left = more;
    }
    None
}

/// The least level that a stream fits, by its level_idc; None exactly where it fits none.
pub fn least(need: &Need) -> Option<u8>
    ensures value { result ≡ least_level need.now }
    ensures least { IfSome result (λ level. IsLeast level need.now) }
    ensures none { result ≡ None → (level : ℕ) → fits_level level need.now ≡ false }
{
    first_of(&LEVELS, need)
}

#[cfg(test)]
mod tests;
