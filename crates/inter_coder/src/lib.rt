//! Inter macroblocks of P and B slices, coded: predicted from the references of the lists, their levels, their samples as a decoder builds
//! them, and the choice between skipped, direct and planned macroblocks.
#![tactic(auto)]

mod blocks;
mod choice;
mod chroma;
mod coded;
mod derived;
mod fields;
mod given;
mod levels;
mod luma;
mod planned;
mod prediction;
mod references;
mod samples;

pub use choice::{build_b_skip, build_p_skip, code_b_direct, code_p_skip, code_planned};
pub use given::{Beside, Pictures};
pub use levels::give_levels;
pub use prediction::Predicted;
pub use samples::build_over;
