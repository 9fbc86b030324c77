//! The units of an access unit that stand around those of its slices: parameter sets, messages and filler (ITU-T
//! H.264, clauses 7.3.2.1, 7.3.2.2, 7.3.2.3 and 7.3.2.7).
#![tactic(auto)]

mod laws;
mod payloads;
mod units;

pub use laws::units_make_accesses;
pub use units::{write_filler, write_messages, write_parameter_sets};
