//! Motion that is derived from neighbouring blocks: vector prediction, P_Skip and spatial direct motion (ITU-T H.264,
//! clause 8.4.1).
#![tactic(auto)]

mod direct;
mod neighbours;
mod prediction;
mod skip;

pub use direct::direct_motion;
pub use prediction::predict;
pub use skip::skip_motion;
pub use spec_motion::Field;
