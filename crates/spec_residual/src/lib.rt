//! Transforms, scaling and quantising of residuals, as definitions, and the types that they speak of.
#![tactic(auto)]

/// What a block of transform coefficients is, which decides how it is scaled (ITU-T H.264, clauses 8.5.9 to 8.5.13).
#[derive(Clone, Copy, Debug, PartialEq, Eq)]
pub enum BlockKind {
    /// A 4x4 luma block.
    Luma4,
    /// An 8x8 luma block.
    Luma8,
    /// The sixteen DC coefficients of an Intra 16x16 macroblock, which have a transform of their own.
    LumaDc,
    /// A 4x4 chroma block.
    Chroma4,
    /// The four DC coefficients of a chroma component, which have a transform of their own.
    ChromaDc,
}
