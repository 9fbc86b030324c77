//! The bins of each syntax element of the macroblock layer, with their contexts (ITU-T H.264, clauses 9.3.2 and
//! 9.3.3.1).
//!
//! An increment `inc` is what the macroblocks around give (clause 9.3.3.1.1).
#![tactic(auto)]

mod inter;
mod levels;
mod macroblock;
mod push;
mod types;

pub use inter::{bins_mvd, bins_ref, bins_skip, bins_sub_type};
pub use levels::{
    bins_coded, bins_last, bins_level, bins_sign, bins_significant, coded_context, first_context,
    last_context, others_context, significant_context,
};
pub use macroblock::{
    bins_chroma_cbp, bins_chroma_mode, bins_end, bins_luma_cbp, bins_mode_flag, bins_mode_rem,
    bins_qp_delta, bins_transform, bins_type,
};
pub use spec_syntax::Bin;
