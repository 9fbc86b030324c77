//! Residuals of macroblocks: the levels that a source gives over a prediction, and the samples that a decoder builds of prediction and
//! levels. The quantiser rounds as for intra macroblocks or as for inter macroblocks, as the caller says.
#![tactic(auto)]

mod blocks;
mod chroma;
mod luma;
mod parts;
mod patterns;
mod places;

pub use blocks::zigzag4;
pub use chroma::{Chroma, build_chroma, chroma_levels, code_chroma};
pub use luma::{
    Coded4, Coded8, built_with_dc, built4, built8, code4, code8, levels_without_dc, levels4,
    levels8, spectrum4,
};
pub use parts::{block_of, block4_at, block8_at, part8, part16, write_block};
pub use patterns::{bit_if, both_ac, both_dc, chroma_pattern, luma_pattern, some_level};
pub use places::{block_column, block_row};
