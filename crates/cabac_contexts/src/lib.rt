//! The contexts of the arithmetic coder: their states where a slice starts, and which one an element takes by the
//! macroblocks at the left and above (ITU-T H.264, clauses 9.3.1.1 and 9.3.3.1.1).
#![tactic(auto)]

mod coded;
mod increments;
mod motion;
mod near;
mod states;

pub use coded::inc_coded;
pub use increments::{
    has_bit, inc_chroma_cbp, inc_chroma_mode, inc_luma_cbp, inc_qp_delta, inc_skip, inc_transform,
    inc_type_b, inc_type_i,
};
pub use motion::{inc_mvd, inc_ref};
pub use near::{
    above_block2, above_block4, above_of2, above_of4, left_block2, left_block4, left_of2, left_of4,
};
pub use states::{Contexts, state};
