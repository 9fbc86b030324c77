//! Rows of a picture, planned by threads: a desk hands each row out once, and the answer is that of one thread.
#![tactic(auto)]

mod collecting;
mod dealing;
mod drawing;
mod memory;
mod picture;
mod placing;
mod pool;
mod rows;
mod task;
#[cfg(test)]
mod tests;
mod working;

pub use memory::{blank_plans, make_pools};
pub use picture::plan_by_workers;
pub use pool::Pool;
pub use task::PlanTask;
