// Where the contexts of each syntax element begin: ctxIdxOffset (ITU-T H.264, table 9-34), and what a block's category
// adds.

/// ctxIdxOffset of mb_type in I slices, without prefix.
pub const MB_TYPE_I_OFFSET: u16 = 3;

/// ctxIdxOffset of mb_skip_flag in P slices.
pub const SKIP_P_OFFSET: u16 = 11;

/// ctxIdxOffset of the prefix of mb_type in P slices.
pub const MB_TYPE_P_OFFSET: u16 = 14;

/// ctxIdxOffset of the suffix of mb_type in P slices.
pub const MB_TYPE_P_SUFFIX_OFFSET: u16 = 17;

/// ctxIdxOffset of sub_mb_type in P slices.
pub const SUB_TYPE_P_OFFSET: u16 = 21;

/// ctxIdxOffset of mb_skip_flag in B slices.
pub const SKIP_B_OFFSET: u16 = 24;

/// ctxIdxOffset of the prefix of mb_type in B slices.
pub const MB_TYPE_B_OFFSET: u16 = 27;

/// ctxIdxOffset of the suffix of mb_type in B slices.
pub const MB_TYPE_B_SUFFIX_OFFSET: u16 = 32;

/// ctxIdxOffset of sub_mb_type in B slices.
pub const SUB_TYPE_B_OFFSET: u16 = 36;

/// ctxIdxOffset of the horizontal components of mvd_l0 and mvd_l1.
pub const MVD_X_OFFSET: u16 = 40;

/// ctxIdxOffset of the vertical components of mvd_l0 and mvd_l1.
pub const MVD_Y_OFFSET: u16 = 47;

/// ctxIdxOffset of ref_idx_l0 and ref_idx_l1.
pub const REF_IDX_OFFSET: u16 = 54;

/// ctxIdxOffset of mb_qp_delta.
pub const QP_DELTA_OFFSET: u16 = 60;

/// ctxIdxOffset of intra_chroma_pred_mode.
pub const CHROMA_MODE_OFFSET: u16 = 64;

/// ctxIdxOffset of prev_intra4x4_pred_mode_flag and prev_intra8x8_pred_mode_flag.
pub const MODE_FLAG_OFFSET: u16 = 68;

/// ctxIdxOffset of rem_intra4x4_pred_mode and rem_intra8x8_pred_mode.
pub const MODE_REM_OFFSET: u16 = 69;

/// ctxIdxOffset of the luma part of coded_block_pattern.
pub const LUMA_PATTERN_OFFSET: u16 = 73;

/// ctxIdxOffset of the chroma part of coded_block_pattern.
pub const CHROMA_PATTERN_OFFSET: u16 = 77;

/// ctxIdxOffset of coded_block_flag.
pub const CODED_OFFSET: u16 = 85;

/// ctxIdxOffset of significant_coeff_flag of blocks below 8x8.
pub const SIGNIFICANT_OFFSET: u16 = 105;

/// ctxIdxOffset of last_significant_coeff_flag of blocks below 8x8.
pub const LAST_OFFSET: u16 = 166;

/// ctxIdxOffset of coeff_abs_level_minus1 of blocks below 8x8.
pub const LEVEL_OFFSET: u16 = 227;

/// ctxIdxOffset of transform_size_8x8_flag.
pub const TRANSFORM_OFFSET: u16 = 399;

/// ctxIdxOffset of significant_coeff_flag of 8x8 blocks.
pub const SIGNIFICANT8_OFFSET: u16 = 402;

/// ctxIdxOffset of last_significant_coeff_flag of 8x8 blocks.
pub const LAST8_OFFSET: u16 = 417;

/// ctxIdxOffset of coeff_abs_level_minus1 of 8x8 blocks.
pub const LEVEL8_OFFSET: u16 = 426;

/// The context of bins before termination: end_of_slice_flag, and the bin of mb_type that tells I_PCM.
pub const TERMINATE: u16 = 276;

/// In a context's place: bins of two equal halves, which have none.
pub const BYPASS: u16 = 1000;

/// ctxBlockCatOffset of coded_block_flag (table 9-40), by the category of a block below 8x8 (table 9-42).
pub const CODED_BY_CATEGORY: [u16; 5] = [0, 4, 8, 12, 16];

/// ctxBlockCatOffset of significant_coeff_flag and last_significant_coeff_flag.
pub const FLAGS_BY_CATEGORY: [u16; 5] = [0, 15, 29, 44, 47];

/// ctxBlockCatOffset of coeff_abs_level_minus1.
pub const LEVELS_BY_CATEGORY: [u16; 5] = [0, 10, 20, 30, 39];
