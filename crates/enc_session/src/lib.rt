//! A session of encoding: groups of pictures become access units, report lines and pictures of the reconstruction, with
//! trials and the ledger of the buffer.
#![tactic(auto)]

mod between;
mod completing;
mod ends;
mod engine;
mod front;
mod group;
mod jobs;
mod keeping;
mod lists;
mod opening;
mod output;
mod session;
mod showing;
mod steps;
mod trials;
mod units;

pub use ends::{GroupEnd, OpenEnd};
pub use session::Session;
