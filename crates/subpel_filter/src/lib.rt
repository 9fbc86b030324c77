//! Blocks of samples predicted from a reference plane (ITU-T H.264, clause 8.4.2.2).
#![tactic(auto)]

mod blocks;
mod chroma;
mod fractions;
mod halves;
mod kept;
mod predict;
mod rows;

pub use halves::{HalfPlanes, fill_halves};
pub use predict::{chroma_block, luma_block, luma_from};
