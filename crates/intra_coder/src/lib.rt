//! Intra macroblocks: their levels, and their samples as a decoder builds them.
#![tactic(auto)]

mod chroma;
mod flat;
mod luma16;
mod luma4;
mod luma8;
mod macroblock;
mod near;
mod site;

pub use flat::build_flat;
pub use macroblock::{code_intra4, code_intra8, code_intra16};
pub use site::{site_of, sites_stand};
