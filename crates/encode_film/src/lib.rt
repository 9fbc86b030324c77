//! The command `encode`: a film becomes a stream of access units under a constant bit rate, the film that a decoder
//! shows of it, and a report.
#![tactic(auto)]

mod ends;
mod groups;
mod lines;
mod places;
mod reading;
mod run;

pub use ends::EncodeEnd;
pub use run::encode;
