//! Samples predicted from reference pictures, as definitions, and the type that they speak of.
#![tactic(auto)]

/// A whole or half sample position about a luma sample G, with the name that ITU-T H.264, clause 8.4.2.2.1, gives its
/// sample.
#[derive(Clone, Copy, Debug, PartialEq, Eq)]
pub enum Position {
    /// G, the sample itself.
    Here,
    /// H, the sample at its right.
    Right,
    /// M, the sample below.
    Below,
    /// b, half a sample to the right.
    Across,
    /// s, half a sample to the right of the sample below.
    AcrossBelow,
    /// h, half a sample down.
    Down,
    /// m, half a sample down from the sample at its right.
    DownRight,
    /// j, half a sample to the right and half a sample down.
    Middle,
}
