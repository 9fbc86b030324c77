//! Commands, their settings, and why words or settings are refused.
use crate::name::Name;
use clap::error::ErrorKind;
use thiserror::Error;

/// The names of what an encoding writes.
#[derive(Debug, Drop)]
pub struct Outputs {
    /// The stream's name.
    pub stream: Name,
    /// The reconstruction's name.
    pub recon: Name,
    /// The report's name.
    pub report: Name,
}

/// A film that is made from a number.
#[derive(Clone, Copy, Debug, PartialEq, Eq)]
pub struct Made {
    /// The number that it is made from.
    pub seed: u64,
    /// Its width in samples: 16 to 1920.
    pub width: u32,
    /// Its height in samples: 16 to 1088.
    pub height: u32,
    /// How many pictures it has: 0 to 300.
    pub count: u32,
}

/// How a film is to be encoded.
#[derive(Clone, Copy, Debug, PartialEq, Eq)]
pub struct Settings {
    /// The bit rate in bits a second: a multiple of 64 from 64 to 360,000,000.
    pub rate: u32,
    /// The size of the coded picture buffer in bits: a multiple of 16 from 16 to 4,000,000,000.
    pub cpb: u32,
    /// The time from the first picture's arrival to its removal from the buffer, in 1/90000 of a second.
    pub delay: u32,
    /// The luma quantisation parameter that the first picture's trials start by: 0 to 51.
    pub qp: u8,
    /// How many reference pictures are held: 1 to 4.
    pub refs: u32,
    /// How many B pictures stand between two others: 0 to 4.
    pub bframes: u32,
    /// How many pictures there are from one IDR picture to the next: 1 to 600.
    pub idr: u32,
    /// How far the search for motion goes to each side, in samples: 1 to 32.
    pub range: u32,
    /// How many slices a picture has: 1 to 255.
    pub slices: u32,
    /// How many threads plan a picture: 1 to 64.
    pub workers: u32,
    /// The level as level_idc (clause A.3); 0 asks for the least that fits.
    pub level: u8,
    /// Whether 8x8 transforms are used.
    pub t8x8: bool,
}

/// What the words ask for.
#[derive(Debug, Drop)]
pub enum Command {
    /// To store each picture of a film as it is.
    Store {
        /// The film's name.
        input: Name,
        /// The stream's name.
        output: Name,
    },
    /// To encode a film.
    Encode {
        /// The film's name.
        input: Name,
        /// The names of what is written.
        outputs: Outputs,
        /// How it is to be encoded.
        settings: Settings,
    },
    /// To encode a film that is made from a number.
    Trial {
        /// The film.
        made: Made,
        /// The names of what is written.
        outputs: Outputs,
        /// How it is to be encoded.
        settings: Settings,
    },
}

/// Why the words are refused.
#[derive(Clone, Copy, Debug, PartialEq, Eq)]
pub enum WordFault {
    /// There is no word.
    NoCommand,
    /// The first word names no command.
    UnknownCommand,
    /// `clap` refuses what follows the command, or answers it with its help; this is its kind of error, which is never
    /// want of memory.
    Refused(ErrorKind),
}

/// Why there is no command.
#[derive(Clone, Copy, Debug, PartialEq, Eq)]
pub enum WordsEnd {
    /// The words are refused.
    Fault(WordFault),
    /// Memory was wanting.
    OutOfMemory,
}

/// Why settings are refused. The first of these that holds is the answer.
#[derive(Clone, Copy, Debug, PartialEq, Eq, Drop, Error)]
pub enum SettingFault {
    /// One reference picture is held, and there are to be B pictures, which need two.
    #[error("B pictures need two reference pictures")]
    Refs,
    /// The coded picture buffer has more than 100,000,000 bits.
    #[error("the coded picture buffer is too large")]
    BigCpb,
    /// There are more than 16 slices, or more than the picture has macroblock rows.
    #[error("too many slices")]
    Slices,
    /// The coded picture buffer has no room for a picture's share of the bit rate and 48 bits.
    #[error("the coded picture buffer is too small")]
    SmallCpb,
    /// The delay is 0, or the buffer would be over-full after it.
    #[error("the delay doesn't fit the coded picture buffer")]
    Delay,
    /// The level is none of table A-1, or the film or its settings pass its limits.
    #[error("the level doesn't fit")]
    Level,
    /// No level of table A-1 fits.
    #[error("no level fits")]
    NoLevel,
}
