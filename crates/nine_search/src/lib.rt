//! The search for motion of all nine partitions of a macroblock at once, with one count of the compared vectors, and its
//! refinement.
#![tactic(auto)]

mod alone;
mod lanes;
mod nine;
mod partitions;
mod refinements;
mod runs;

pub use alone::search_nine_alone;
pub use nine::search_nine;
pub use partitions::{Nine, nine_blocks};
pub use refinements::{Refinements, refine_nine};
