//! The search for motion, as definitions: the window's vectors in their order, the best of them, and which of them have
//! to be compared; and the types that the search speaks of.
#![tactic(auto)]

mod blocks;
mod laws;

pub use blocks::{Best, Block, Spot};
pub use laws::scan_law;
