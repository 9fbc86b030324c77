//! The outside of the encoder: where its bytes come from and go to, and who is asked before each row.
#![tactic(auto)]

mod film;
mod full;
mod memory;
mod places;
mod real;
mod studio;

pub use film::WithFilm;
pub use full::{read_full, write_full};
pub use memory::{MemStudio, Standing};
pub use real::RealStudio;
pub use studio::{Failed, Gate, OpenGate, Out, Place, Studio};
