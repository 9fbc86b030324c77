//! What the small programs beside the encoder have in common: words and lines of numbers as their input, and why they
//! stop.
#![tactic(auto)]

mod faults;
mod numbers;
mod words;

pub use faults::{Fault, ended};
pub use numbers::{Numbers, all_numbers, as_byte, as_bytes, as_short, numbers_of};
pub use words::{borrowed, number_words, own_words, read_lines};
