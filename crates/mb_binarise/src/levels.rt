//! The elements of residual blocks. The category of a block is 0 for Intra 16x16 DC, 1 for its AC, 2 for luma 4x4, 3
//! for chroma DC, 4 for chroma AC and 5 for luma 8x8 (ctxBlockCat, table 9-42).

ghost use Rattle.std.specs.Prelude.{◌≡◌, ℕ, ◌+◌, ◌<◌, ◌≤◌};
ghost use Rattle.spec_syntax.specs.Syntax.{flag_string};
ghost use Rattle.spec_syntax.specs.Levels.{coded_at, significant_at, last_at, first_at, others_at, levels_from, minus1_string, sign_at};

use crate::push::{one, push_golomb, push_ones};
use arrayvec::ArrayVec;
use enc_tables::{
    BYPASS, CHROMA_DC_BLOCK, CODED_BY_CATEGORY, CODED_OFFSET, FLAGS_BY_CATEGORY, LAST_OFFSET,
    LAST8, LAST8_OFFSET, LEVEL_OFFSET, LEVEL8_OFFSET, LEVELS_BY_CATEGORY, LUMA8_BLOCK,
    SIGNIFICANT_OFFSET, SIGNIFICANT8, SIGNIFICANT8_OFFSET,
};
use spec_syntax::Bin;

/// The context of coded_block_flag.
#[tactic(auto, unfolding(spec_syntax::specs::Levels::coded_at))]
pub fn coded_context(category: u8, inc: u8) -> u16
    requires { category ≤ 4 }
    ensures { result ≡ coded_at category inc }
{
    CODED_OFFSET + CODED_BY_CATEGORY[category as usize] + inc as u16
}

/// coded_block_flag, whether a block has a level that isn't 0.
pub fn bins_coded(category: u8, inc: u8, flag: bool) -> ArrayVec<Bin, 48>
    requires { category ≤ 4 }
    ensures { result.items ≡ flag_string (coded_at category inc) flag }
{
    one(coded_context(category, inc), flag)
}

/// The context of significant_coeff_flag at a place, which isn't the block's last.
#[tactic(auto, unfolding(spec_syntax::specs::Levels::significant_at))]
pub fn significant_context(category: u8, place: u8) -> u16
    requires category { category ≤ 5 }
    requires place { place < 63 }
    ensures { result ≡ significant_at category place }
{
    match category {
        LUMA8_BLOCK => SIGNIFICANT8_OFFSET + SIGNIFICANT8[place as usize] as u16,
        CHROMA_DC_BLOCK => SIGNIFICANT_OFFSET
            + FLAGS_BY_CATEGORY[CHROMA_DC_BLOCK as usize]
            + place.min(2) as u16,
        _ => SIGNIFICANT_OFFSET + FLAGS_BY_CATEGORY[category as usize] + place as u16,
    }
}

/// significant_coeff_flag, whether the level at a place isn't 0; the place is in the block's order and isn't its last.
pub fn bins_significant(category: u8, place: u8, flag: bool) -> ArrayVec<Bin, 48>
    requires category { category ≤ 5 }
    requires place { place < 63 }
    ensures { result.items ≡ flag_string (significant_at category place) flag }
{
    one(significant_context(category, place), flag)
}

/// The context of last_significant_coeff_flag at a place, which isn't the block's last.
#[tactic(auto, unfolding(spec_syntax::specs::Levels::last_at))]
pub fn last_context(category: u8, place: u8) -> u16
    requires category { category ≤ 5 }
    requires place { place < 63 }
    ensures { result ≡ last_at category place }
{
    match category {
        LUMA8_BLOCK => LAST8_OFFSET + LAST8[place as usize] as u16,
        CHROMA_DC_BLOCK => LAST_OFFSET
            + FLAGS_BY_CATEGORY[CHROMA_DC_BLOCK as usize]
            + place.min(2) as u16,
        _ => LAST_OFFSET + FLAGS_BY_CATEGORY[category as usize] + place as u16,
    }
}

/// last_significant_coeff_flag, whether the levels after a place are all 0; the place isn't the block's last.
pub fn bins_last(category: u8, place: u8, flag: bool) -> ArrayVec<Bin, 48>
    requires category { category ≤ 5 }
    requires place { place < 63 }
    ensures { result.items ≡ flag_string (last_at category place) flag }
{
    one(last_context(category, place), flag)
}

// Where the levels of a category begin.
fn levels_context(category: u8) -> u16
    requires { category ≤ 5 }
    ensures value { result ≡ levels_from category }
    ensures most { result ≤ 426 }
{
    match category {
        LUMA8_BLOCK => LEVEL8_OFFSET,
        _ => LEVEL_OFFSET + LEVELS_BY_CATEGORY[category as usize],
    }
}

/// The context of the first bin of coeff_abs_level_minus1, after `above_one` levels of greater size than 1 and `ones`
/// of size 1.
#[tactic(auto, unfolding(spec_syntax::specs::Levels::first_at))]
pub fn first_context(category: u8, above_one: u8, ones: u8) -> u16
    requires { category ≤ 5 }
    ensures { result ≡ first_at category above_one ones }
{
    let from = levels_context(category);
    match above_one {
        0 => from + (1 + ones as u16).min(4),
        _ => from,
    }
}

/// The context of the other bins of its prefix.
#[tactic(auto, unfolding(spec_syntax::specs::Levels::others_at))]
pub fn others_context(category: u8, above_one: u8) -> u16
    requires { category ≤ 5 }
    ensures { result ≡ others_at category above_one }
{
    let from = levels_context(category);
    match category {
        CHROMA_DC_BLOCK => from + 5 + (above_one as u16).min(3),
        _ => from + 5 + (above_one as u16).min(4),
    }
}

/// coeff_abs_level_minus1, a level's size less 1, after `above_one` levels of greater size than 1 and `ones` of size 1
/// in the block (clause 9.3.2.3).
#[tactic(auto, using(crate::proofs::Strings::minus1_zero, crate::proofs::Strings::minus1_small, crate::proofs::Strings::minus1_large), unfolding(spec_syntax::specs::Syntax::flag_string))]
pub fn bins_level(category: u8, above_one: u8, ones: u8, minus1: u16) -> ArrayVec<Bin, 48>
    requires category { category ≤ 5 }
    requires levels { above_one + ones ≤ 63 }
    requires range { minus1 ≤ 8190 }
    ensures { result.items ≡ minus1_string (first_at category above_one ones) (others_at category above_one) minus1 }
{
    let first = first_context(category, above_one, ones);
    if minus1 == 0 {
        return one(first, false);
    }
    let mut bins = one(first, true);
    push_ones(
        &mut bins,
        others_context(category, above_one),
        13,
        minus1 - 1,
    );
    if minus1 > 13 {
        push_golomb(&mut bins, (minus1 - 14) as u32);
    }
    bins
}

/// coeff_sign_flag, whether a level is below 0.
pub fn bins_sign(negative: bool) -> ArrayVec<Bin, 48>
    ensures { result.items ≡ flag_string sign_at negative }
{
    one(BYPASS, negative)
}
