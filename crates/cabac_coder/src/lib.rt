//! The arithmetic coder of ITU-T H.264 (clause 9.3.4) over a bounded buffer.
#![tactic(auto)]

mod coder;
mod interval;
mod pending;

pub use coder::Coder;
