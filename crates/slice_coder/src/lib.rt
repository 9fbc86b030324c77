//! Slices of I, P and B pictures, coded by the written choice or as the coarsest ones: the records of the macroblocks,
//! their samples, and the payload of the slice's unit.
#![tactic(auto)]

mod behind;
mod close;
mod coarsest;
mod colocated;
mod data;
mod laws;
mod macroblock;
mod near;
mod place;
mod samples;
mod slice;
#[cfg(test)]
mod tests;
mod write;

pub use laws::slices_are_searched;
pub use slice::code_slice;
