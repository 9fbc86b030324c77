//! What the encoder plans for a macroblock before it is coded, as definitions.
#![tactic(auto)]

/// A mode and what it costs: a sum of absolute differences.
#[derive(Clone, Copy, Debug, PartialEq, Eq)]
pub struct ModeCost {
    /// The mode.
    pub mode: u8,
    /// The sum of absolute differences.
    pub cost: u32,
}
