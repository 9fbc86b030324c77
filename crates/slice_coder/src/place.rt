// Where a slice stands.
/// Where a slice stands in its picture, and which transforms it may use.
#[derive(Clone, Copy)]
pub struct Place {
    /// Macroblocks in a row of the picture.
    pub across: u32,
    /// The slice's first row of macroblocks.
    pub row: u32,
    /// The row behind its last one.
    pub end: u32,
    /// Whether 8x8 transforms may be used (transform_8x8_mode_flag).
    pub t8x8: bool,
}
