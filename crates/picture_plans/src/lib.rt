//! Plans of whole pictures: each row of macroblocks, as a row of its slice.
#![tactic(auto)]

mod picture;
mod rows;
mod slices;

pub use picture::plan_picture;
pub use slices::slice_start;
