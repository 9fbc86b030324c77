//! The transforms and the quantiser of residuals, and what a decoder makes of levels.
#![tactic(auto)]

mod blocks4;
mod dc;
mod edges;
mod forward;
mod forward8x8;
mod hadamard;
mod inverse;
mod inverse8x8;
mod levels;
mod quant;
mod scale;
mod tables;
mod turn;

pub use blocks4::{levels4, rescale4};
pub use dc::{chroma_dc, luma_dc};
pub use forward::forward4;
pub use forward8x8::forward8;
pub use inverse::inverse4;
pub use inverse8x8::inverse8;
pub use levels::{Levels4, Levels8, LevelsDc, quantise_chroma_dc, quantise4, quantise8};
pub use quant::quantise;
pub use scale::{rescale, rescale_chroma_dc, rescale_luma_dc};
pub use spec_residual::BlockKind;
