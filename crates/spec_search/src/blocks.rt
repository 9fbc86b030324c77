// Blocks, and what the search finds for them.

/// A block of luma samples of a picture.
#[derive(Clone, Copy, Debug, PartialEq, Eq, Drop)]
pub struct Block {
    /// The column of its first samples.
    pub x: u32,
    /// The row of its first samples.
    pub y: u32,
    /// Columns: 8 or 16.
    pub w: u32,
    /// Rows: 8 or 16.
    pub h: u32,
}

/// The best whole-sample vector of a block's window.
#[derive(Clone, Copy, Debug, PartialEq, Eq, Drop)]
pub struct Best {
    /// Samples to the right.
    pub dx: i16,
    /// Samples downwards.
    pub dy: i16,
    /// The sum of absolute differences there.
    pub sad: u32,
    /// How many candidates were compared.
    pub compared: u32,
}

/// A vector of a window, by the ring about zero on which it lies: `column` samples right of the ring's first column and
/// `row` samples below its first row. The vector is (column − ring, row − ring).
#[derive(Clone, Copy, Debug, PartialEq, Eq, Drop)]
pub struct Spot {
    /// The greater of the vector's two sizes.
    pub ring: usize,
    /// 0 to twice the ring.
    pub column: usize,
    /// 0 to twice the ring.
    pub row: usize,
}
