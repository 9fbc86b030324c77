//! The sums of all 8x8 blocks of samples of a plane and its margin.
#![tactic(auto)]

mod passes;
mod table;

pub use table::SumTable;
