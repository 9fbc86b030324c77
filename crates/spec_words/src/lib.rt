//! The words of a command line: what they mean, as definitions, and the types that these speak of.
#![tactic(auto)]

pub mod command;
pub mod name;

/// How a film is to be encoded, as far as the program asks today; the settings of its commands are those of
/// [`command::Settings`].
#[derive(Clone, Copy, Debug, PartialEq, Eq)]
pub struct Settings {
    /// The luma quantisation parameter: 0 to 51.
    pub qp: u8,
    /// How many slices a picture has: 1 to 255.
    pub slices: u32,
    /// Whether 8x8 transforms are used.
    pub t8x8: bool,
}
