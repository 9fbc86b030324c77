//! The types that the encoder's layers share: macroblock records, motion, plans and steps; and the tables of the
//! standard.
#![tactic(auto)]

mod arithmetic;
mod categories;
mod choice;
mod contexts;
mod filter;
mod kinds;
mod limits;
mod offsets;
mod plans;
mod records;
mod significance;
mod transform;
mod units;

pub use arithmetic::{NEXT_LPS, RANGE_LPS, lps_range, next_state};
pub use categories::{
    CHROMA_AC_BLOCK, CHROMA_DC_BLOCK, INTRA16_AC_BLOCK, INTRA16_DC_BLOCK, LUMA4_BLOCK, LUMA8_BLOCK,
};
pub use choice::choose;
pub use contexts::{CONTEXT_PAIRS_I, CONTEXT_PAIRS_PB};
pub use filter::{FILTER_ALPHA, FILTER_BETA, FILTER_TC0};
pub use limits::{MOST_HEIGHT, MOST_WIDTH};
pub use offsets::{
    BYPASS, CHROMA_MODE_OFFSET, CHROMA_PATTERN_OFFSET, CODED_BY_CATEGORY, CODED_OFFSET,
    FLAGS_BY_CATEGORY, LAST_OFFSET, LAST8_OFFSET, LEVEL_OFFSET, LEVEL8_OFFSET, LEVELS_BY_CATEGORY,
    LUMA_PATTERN_OFFSET, MB_TYPE_B_OFFSET, MB_TYPE_B_SUFFIX_OFFSET, MB_TYPE_I_OFFSET,
    MB_TYPE_P_OFFSET, MB_TYPE_P_SUFFIX_OFFSET, MODE_FLAG_OFFSET, MODE_REM_OFFSET, MVD_X_OFFSET,
    MVD_Y_OFFSET, QP_DELTA_OFFSET, REF_IDX_OFFSET, SIGNIFICANT_OFFSET, SIGNIFICANT8_OFFSET,
    SKIP_B_OFFSET, SKIP_P_OFFSET, SUB_TYPE_B_OFFSET, SUB_TYPE_P_OFFSET, TERMINATE,
    TRANSFORM_OFFSET,
};
pub use plans::RowPlan;
pub use records::{
    CtxState, MbKind, MbPlan, MbRecord, Motion, PartPlan, PlanStep, SliceKind, Vector,
};
pub use significance::{LAST8, SIGNIFICANT8};
pub use transform::{
    CHROMA_QP, CLASS4, CLASS8, FORWARD4, FORWARD8, HADAMARD2, HADAMARD4, MULTIPLIER4, MULTIPLIER8,
    SCALING4, SCALING8, ZIGZAG4, ZIGZAG8,
};
pub use units::{HIGHEST_REF_IDC, UNIT_IDR_SLICE, UNIT_PICTURE_SET, UNIT_SEQUENCE_SET};
