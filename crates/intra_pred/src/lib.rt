//! Intra prediction of luma blocks, macroblocks and chroma blocks.
#![tactic(auto)]

mod allow;
mod blocks;
mod directions;
mod lines;
mod means;
mod planes;
mod predictions;

pub use allow::allowed;
pub use lines::{Line4, Line8};
pub use predictions::{pred_chroma, pred4, pred8, pred16};
pub use spec_intra::{Avail, Nb4, Nb8, Nb16, NbC};
