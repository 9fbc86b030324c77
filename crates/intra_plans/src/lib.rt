//! What is planned for a row of macroblocks before it is coded: the best intra modes and their costs.
#![tactic(auto)]

mod blocks;
mod difference;
mod macroblock;
mod modes;
mod rows;

pub use macroblock::plan_macroblock;
pub use rows::plan_row;
