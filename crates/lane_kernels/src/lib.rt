//! Sums, differences and filter taps over rows and blocks of samples, by vector lanes.
#![tactic(auto)]

mod blocks;
mod rows;
mod taps;

pub use blocks::{sad_block8, sad_block16};
pub use rows::{sad_rows, sum_rows};
pub use taps::six_tap;
