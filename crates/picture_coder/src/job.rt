// What a picture is coded from.
use enc_tables::PlanStep;
use picture_planes::Picture;
use ref_lists::Lists;

/// A picture that is to be coded, and how.
#[derive(Clone, Copy)]
pub struct Job<'a> {
    /// The source, with filled margins, of the coder's size.
    pub source: &'a Picture,
    /// The references that are held (none before an IDR picture), and the lists: those of the picture's kind and order
    /// count, with its command applied.
    pub lists: &'a Lists<'a>,
    /// Its place in the plan.
    pub step: PlanStep,
    /// idr_pic_id, 0 or 1: not that of the IDR picture before (ITU-T H.264, clause 7.4.3).
    pub idr_id: u8,
    /// How many slices it has: as many as the coder was made for.
    pub slices: u32,
    /// How many threads plan it at most: as many as the coder was made for.
    pub workers: u32,
    /// The range of the search, from 1 to 32 whole samples to each side.
    pub range: u32,
    /// Whether 8x8 transforms are used (transform_8x8_mode_flag).
    pub t8x8: bool,
    /// The command by which a P picture moves its least different reference to the front of list 0
    /// (abs_diff_pic_num_minus1); of the coarsest coding None.
    pub moved: Option<u16>,
}
