//! Pictures of all kinds, planned, coded and filtered, slice by slice (ITU-T H.264).
#![tactic(auto)]

mod coder;
mod coding;
mod counting;
mod filter;
mod heads;
mod job;
mod keeping;
mod laws;
mod memory;
mod picture;
mod planning;
mod rows;
mod slices;

pub use coder::PictureCoder;
pub use job::Job;
pub use laws::{picture_units_make_accesses, pictures_count_in_turns};
