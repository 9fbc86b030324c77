//! Films: what a YUV4MPEG2 file says, as definitions, and the types that they speak of.
#![tactic(auto)]

ghost use Rattle.std.specs.Prelude.{ℕ, List, ◌≡◌, ◌≤◌, length};
ghost use Rattle.spec_film.specs.Films.{Planes, planes_count, planes_at, padded};
ghost use Rattle.spec_film.specs.Cropping.{shown, HasOwnSizes};

use thiserror::Error;

/// The head of a film.
#[derive(Clone, Copy, Debug, PartialEq, Eq)]
pub struct FilmHead {
    /// Luma samples in a row.
    pub width: u32,
    /// Luma rows.
    pub height: u32,
    /// Pictures in `den` seconds.
    pub num: u32,
    /// Seconds for `num` pictures.
    pub den: u32,
}

/// Why no head was read. The tests are made in this order, and the first that holds is the answer.
#[derive(Clone, Copy, Debug, PartialEq, Eq, Error)]
pub enum HeadFault {
    /// A read failed.
    #[error("a read failed")]
    ReadFault,
    /// The input doesn't begin with `YUV4MPEG2` and a space or a line feed, or it has fewer than 1024 bytes and no line
    /// feed.
    #[error("the input is no YUV4MPEG2 film")]
    NotY4m,
    /// There is no line feed among the first 1024 bytes.
    #[error("the head's line is too long")]
    LongLine,
    /// A width, a height or a rate isn't written as it has to be, or the rate is out of its range.
    #[error("a number of the head is malformed")]
    BadNumber,
    /// The samples aren't 4:2:0 with 8 bits.
    #[error("the film isn't 8-bit 4:2:0")]
    Chroma,
    /// The film may be interlaced.
    #[error("the film is interlaced")]
    Interlace,
    /// The width or the height isn't there.
    #[error("the head has no size")]
    Missing,
    /// The width isn't from 16 to 4096, or the height not from 16 to 2304.
    #[error("the size is out of range")]
    Size,
    /// The width or the height is odd.
    #[error("the size is odd")]
    OddSize,
}

/// Why bytes are no film. Pictures are counted from 0.
#[derive(Clone, Copy, Debug, PartialEq, Eq)]
pub enum InputFault {
    /// The film's head isn't one; never `ReadFault`.
    Head(HeadFault),
    /// Where a picture should begin there is no line that begins one.
    NotFrame {
        /// The picture's number.
        picture: u32,
    },
    /// The input ends within a picture.
    CutFrame {
        /// The picture's number.
        picture: u32,
        /// How many bytes of its line and its samples are there.
        got: u32,
    },
    /// A byte follows picture number 1,000,000, counted from 1.
    TooLong,
}

/// What is shown of a padded picture is the picture: padding by the last column and row, and the cropping rectangle, take nothing
/// away and leave nothing behind. So it is for planes of the head's own sizes, and for those that a picture's bytes hold.
pub fn padded_pictures_are_shown()
    ensures planes { (head : FilmHead) (p : Planes) → HasOwnSizes head p → shown head (padded head p) ≡ p }
    ensures bytes { (head : FilmHead) (bytes : List ℕ) → planes_count head ≤ length bytes → shown head (padded head (planes_at head bytes)) ≡ planes_at head bytes }
{}
