// How a picture is coded.

/// The size of a picture, and how it is coded.
#[derive(Clone, Copy, Debug, PartialEq, Eq)]
pub struct Coding {
    /// Macroblocks in a row, at most 256.
    pub across: u32,
    /// Rows of macroblocks, at most 144.
    pub down: u32,
    /// Slices, at most as many as rows.
    pub slices: u32,
    /// The luma quantisation parameter, at most 51; of the coarsest coding 51.
    pub qp: u8,
    /// Whether the picture is coded as coarsely as can be, and not by the written choice.
    pub coarsest: bool,
}
