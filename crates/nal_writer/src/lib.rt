//! NAL units in the byte stream format (ITU-T H.264, clause 7.3.1 and Annex B).
#![tactic(auto)]

mod units;

pub use units::{filler, unit, unit_bits, units_are_read_back};
