//! The report of an encoding, as definitions, and the types that they speak of.
#![tactic(auto)]

pub use enc_tables::SliceKind;

/// What the report says at its start.
#[derive(Clone, Copy, Debug, PartialEq, Eq)]
pub struct ReportHead {
    /// Bits per second.
    pub rate: u32,
    /// The size of the coded picture buffer in bits.
    pub cpb: u32,
    /// The initial removal delay, in ticks of a clock of 90 kHz.
    pub delay: u32,
    /// level_idc.
    pub level: u8,
    /// Slices per picture.
    pub slices: u32,
}

/// What the report says of a picture.
#[derive(Clone, Copy, Debug, PartialEq, Eq)]
pub struct ReportPicture {
    /// Its place in coded order, from 0.
    pub coded: u32,
    /// Its place in display order, from 0.
    pub display: u32,
    /// Its slices' type.
    pub kind: SliceKind,
    /// The quantisation parameter of its slices.
    pub qp: u8,
    /// Whether its coding is the coarsest one.
    pub coarsest: bool,
    /// The bits of its access unit, without filler.
    pub bits: u64,
    /// The bits of the filler behind it.
    pub filler: u64,
    /// The bits that were there for it.
    pub have: u64,
}

/// What the report says at its end.
#[derive(Clone, Copy, Debug, PartialEq, Eq)]
pub struct ReportTotals {
    /// The pictures that were coded.
    pub pictures: u32,
    /// The bits of all access units, with filler.
    pub bits: u64,
    /// The candidates that were compared.
    pub comparisons: u64,
}
