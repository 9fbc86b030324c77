//! The search for motion: the best whole-sample vector of a window, by elimination, with a count of the differences that
//! were taken.
#![tactic(auto)]

mod alone;
mod bounds;
mod candidates;
mod quarters;
mod steps;
mod window;

pub use alone::search_alone;
pub use bounds::own_sums;
pub use candidates::after;
pub use quarters::{refine, refine_from};
pub use spec_search::{Best, Block};
pub use steps::{Steps, begun};
pub use window::search;
