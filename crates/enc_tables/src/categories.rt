// The categories of blocks of levels: ctxBlockCat (ITU-T H.264, table 9-42).

/// The DC levels of Intra_16x16.
pub const INTRA16_DC_BLOCK: u8 = 0;

/// The AC levels of one 4x4 block of Intra_16x16.
pub const INTRA16_AC_BLOCK: u8 = 1;

/// The levels of another 4x4 luma block.
pub const LUMA4_BLOCK: u8 = 2;

/// The DC levels of one chroma component.
pub const CHROMA_DC_BLOCK: u8 = 3;

/// The AC levels of a 4x4 chroma block.
pub const CHROMA_AC_BLOCK: u8 = 4;

/// The levels of an 8x8 luma block.
pub const LUMA8_BLOCK: u8 = 5;
