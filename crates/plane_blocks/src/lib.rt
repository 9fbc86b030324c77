//! Blocks of planes, and the neighbours of blocks.
#![tactic(auto)]

mod near;
mod places;
mod reading;

pub use near::{near_chroma, near4, near8, near16};
pub use places::{near_block4, near_block8, near_macroblock};
pub use reading::read_block;
