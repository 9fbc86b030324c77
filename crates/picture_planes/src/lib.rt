//! Planes of samples with a margin, pictures of three planes, and rows of pictures lent for writing.
#![tactic(auto)]

mod picture;
mod plane;
mod stripe;

pub use picture::Picture;
pub use plane::Plane;
pub use stripe::Stripe;
