//! What is planned for a row of macroblocks before it is coded: the best intra modes, and the motion of least cost of each of nine
//! partitions over all pictures of both lists, with a count of the compared vectors.
#![tactic(auto)]

mod alone;
mod both;
mod entries;
mod macroblock;
mod partitions;
mod references;
mod rows;
mod samples;
mod searches;

pub use alone::plan_row_alone;
pub use rows::plan_row;
