//! Parameter sets, slice headers and messages (ITU-T H.264, clauses 7.3.2, 7.3.3, D.1.2 and D.1.3), field by field.
#![tactic(auto)]

mod fields;
mod heads;
mod messages;

pub use heads::{write_pps, write_slice_head, write_sps};
pub use messages::{write_buffering, write_timing};
pub use spec_headers::{SeqHead, SliceHead, Timing};

#[cfg(test)]
mod tests;
