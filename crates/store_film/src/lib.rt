//! The command `store` over a studio: a film as a stream of I_PCM macroblocks.
#![tactic(auto)]

mod ends;
mod pictures;
mod run;

pub use ends::StoreEnd;
pub use run::store;
