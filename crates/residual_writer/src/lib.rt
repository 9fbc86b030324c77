//! The bins of residual blocks (ITU-T H.264, clause 7.3.5.3.3), coded as they come: no list of bins is made.
//!
//! The category of a block is 0 for Intra 16x16 DC, 1 for its AC, 2 for luma 4x4, 3 for chroma DC, 4 for chroma AC and
//! 5 for luma 8x8 (ctxBlockCat, table 9-42).
#![tactic(auto)]

mod blocks;
mod levels;
mod numbers;
mod significance;

pub use blocks::{write_block, write_some_levels};
