//! The deblocking filter over whole pictures, in place (ITU-T H.264, clause 8.7).
#![tactic(auto)]

mod edges;
mod lines;
mod macroblocks;
mod picture;
mod strengths;
mod thresholds;

pub use picture::deblock_picture;
