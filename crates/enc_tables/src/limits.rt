// The largest pictures.

/// Samples in a row of a picture, at most.
pub const MOST_WIDTH: u32 = 4096;

/// Rows of a picture, at most.
pub const MOST_HEIGHT: u32 = 2304;
