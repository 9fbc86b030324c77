//! Intra prediction, as definitions: the formulas of every mode, which modes are allowed, and which neighbours a block
//! has; and the types that they speak of.
#![tactic(auto)]

/// Which neighbours of a block may be used for intra prediction (ITU-T H.264, clause 6.4.11).
#[derive(Clone, Copy, Debug, PartialEq, Eq)]
pub struct Avail {
    /// The samples at the left.
    pub left: bool,
    /// The samples above.
    pub above: bool,
    /// The sample above at the left.
    pub corner: bool,
    /// The samples above at the right, beyond the block's width.
    pub above_right: bool,
}

/// The neighbours of a 4x4 luma block. Samples that aren't available have any value.
#[derive(Clone, Copy)]
pub struct Nb4 {
    /// The four samples above and the four beyond them.
    pub above: [u8; 8],
    /// The samples at the left, from above.
    pub left: [u8; 4],
    /// The sample above at the left.
    pub corner: u8,
    /// Which of them there are.
    pub avail: Avail,
}

/// The neighbours of an 8x8 luma block. Samples that aren't available have any value.
#[derive(Clone, Copy)]
pub struct Nb8 {
    /// The eight samples above and the eight beyond them.
    pub above: [u8; 16],
    /// The samples at the left, from above.
    pub left: [u8; 8],
    /// The sample above at the left.
    pub corner: u8,
    /// Which of them there are.
    pub avail: Avail,
}

/// The luma neighbours of a macroblock. Samples that aren't available have any value.
#[derive(Clone, Copy)]
pub struct Nb16 {
    /// The samples above.
    pub above: [u8; 16],
    /// The samples at the left, from above.
    pub left: [u8; 16],
    /// The sample above at the left.
    pub corner: u8,
    /// Which of them there are.
    pub avail: Avail,
}

/// The neighbours of a macroblock in one chroma component. Samples that aren't available have any value.
#[derive(Clone, Copy)]
pub struct NbC {
    /// The samples above.
    pub above: [u8; 8],
    /// The samples at the left, from above.
    pub left: [u8; 8],
    /// The sample above at the left.
    pub corner: u8,
    /// Which of them there are.
    pub avail: Avail,
}
