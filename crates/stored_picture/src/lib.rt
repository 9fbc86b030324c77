//! Writes the access unit that stores a picture: parameter sets, and one IDR slice of I_PCM macroblocks, whose
//! samples are written as they are.
#![tactic(auto)]

mod access_unit;
mod append;
mod blocks;
mod macroblocks;
mod slice;

pub use access_unit::{payload_bytes, units_bytes, write_access_unit};
pub use slice::write_pcm_slice;
