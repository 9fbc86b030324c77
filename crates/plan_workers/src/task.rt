// What rows are planned from.
use block_sums::SumTable;
use enc_tables::SliceKind;
use picture_planes::Picture;
use ref_lists::Lists;

/// A picture whose rows are to be planned, and how.
#[derive(Clone, Copy)]
pub struct PlanTask<'a> {
    /// The source, in whole macroblocks.
    pub source: &'a Picture,
    /// The table of sums of its luma plane.
    pub sums: &'a SumTable,
    /// The references, of the source's size, and the lists of the picture.
    pub lists: &'a Lists<'a>,
    /// The kind of its slices.
    pub kind: SliceKind,
    /// How many slices it has, at most as many as rows.
    pub slices: u32,
    /// How many rows of macroblocks it has, at most 144.
    pub down: u32,
    /// The range of the search, from 1 to 32 whole samples to each side.
    pub range: u32,
    /// Whether 8x8 transforms are used (transform_8x8_mode_flag).
    pub t8x8: bool,
}
