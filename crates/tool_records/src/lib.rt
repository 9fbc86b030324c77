//! Macroblocks as lines of numbers, and whether the syntax of ITU-T H.264 can give them where they are: what a program
//! that takes macroblocks from outside asks before it writes them.
#![tactic(auto)]

mod checks;
mod inter;
mod numbers;

pub use checks::is_record;
pub use numbers::{kind_of, motion_of, record_of, reference_of, slice_kind_of};
