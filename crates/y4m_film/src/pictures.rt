// Pictures are read one by one.
ghost use Rattle.std.specs.Prelude.{◌≡◌, ◌≤◌, ◌<◌, ◌+◌, ◌-◌, ◌*◌, ◌/◌, ℕ, true, false, Some, None, List, [], length, take, drop, IfOk, IfErr, IfSome};
ghost use Rattle.spec_film.specs.Films.{AllowedHead, frame_step, Next, most_pictures, planes_at, planes_count, padded, is_unlike_frame};
ghost use Rattle.enc_edge.specs.Reads.{Took, ReadFailedWithin};
ghost use Rattle.picture_planes.specs.Pictures.{planes_of, SameShapes};
ghost use Rattle.y4m_film.specs.Parts.{PartRead};
ghost use Rattle.y4m_film.specs.Sizes.{FitsHead};
ghost use Rattle.y4m_film.specs.FrameEnds.{FrameEnd, CutEnd, PlanesEnd};

use crate::lines::{LineEnd, MOST_LINE, read_line};
use crate::pieces::PIECE;
use crate::rows::{MOST_ROW, read_plane};
use crate::text::ends_word;
use enc_edge::{Failed, Studio, read_full};
use picture_planes::Picture;
use spec_film::{FilmHead, InputFault};
use thiserror::Error;

/// Why no picture was read. Pictures are counted from 0.
#[derive(Clone, Copy, Debug, PartialEq, Eq, Error)]
pub enum FrameFault {
    /// What comes next doesn't begin with the line of a picture, or the line is too long.
    #[error("no picture begins where one should")]
    NotFrame {
        /// The picture's number.
        picture: u32,
    },
    /// The input ends within a picture.
    #[error("a picture is cut short")]
    CutFrame {
        /// The picture's number.
        picture: u32,
        /// How many bytes of its line and its samples were there.
        got: u32,
    },
    /// The film has as many pictures as a film may have, and a byte follows them.
    #[error("the film has too many pictures")]
    TooLong,
    /// A read failed.
    #[error("a read failed")]
    ReadFault,
}

impl FrameFault {
    ghost use Rattle.y4m_film.specs.FrameEnds.{input_fault};

    /// The fault of the input; None where a read failed.
    pub fn input_fault(self) -> Option<InputFault>
        ensures { result ≡ input_fault self }
    {
        match self {
            FrameFault::NotFrame { picture } => Some(InputFault::NotFrame { picture }),
            FrameFault::CutFrame { picture, got } => Some(InputFault::CutFrame { picture, got }),
            FrameFault::TooLong => Some(InputFault::TooLong),
            FrameFault::ReadFault => None,
        }
    }
}

/// The most pictures that a film has.
pub const MOST_PICTURES: u32 = 1_000_000;

// The bytes begin no line of a picture.
#[tactic(auto, unfolding(spec_film::specs::Films::is_unlike_frame))]
fn is_unlike_frame(bytes: &[u8]) -> bool
    ensures { result ≡ is_unlike_frame bytes.now }
{
    let word = &bytes[..bytes.len().min(5)];
    if !b"FRAME".as_slice().starts_with(word) {
        return true;
    }
    bytes.len() >= 6 && !ends_word(bytes[5])
}

// Behind the last picture that a film may have, the input has to end.
fn end_of_film<S: Studio>(studio: &mut S) -> Result<bool, FrameFault>
    ensures end { IfOk result (λ more. (more ≡ false) × Took 0 (λ left. left ≡ []) (S.seen studio.old) (S.seen studio.new)) }
    ensures fault { (head : FilmHead) → IfErr result (FrameEnd head 1000000 (S.seen studio.old) (S.seen studio.new)) }
{
    let mut byte = [0u8; 1];
    let read = match read_full(studio, &mut byte) {
        Ok(read) => read,
        Err(_) => return Err(FrameFault::ReadFault),
    };
    if read == 0 {
        return Ok(false);
    }
    Err(FrameFault::TooLong)
}

// The input ended within the line of a picture, or before it. These are all bytes that were left.
fn end_in_line(bytes: &[u8], number: u32) -> Result<bool, FrameFault>
    requires { length bytes.now < 1024 }
    ensures { CutEnd number bytes.now result }
{
    if bytes.is_empty() {
        Ok(false)
    } else if is_unlike_frame(bytes) {
        Err(FrameFault::NotFrame { picture: number })
    } else {
        Err(FrameFault::CutFrame {
            picture: number,
            got: bytes.len() as u32,
        })
    }
}

// Reads the samples of a picture: luma, Cb, Cr. The answer is how many bytes were read; where the input has fewer than
// all, the picture's samples may be any.
fn read_planes<S: Studio>(
    studio: &mut S,
    head: &FilmHead,
    picture: &mut Picture,
) -> Result<usize, Failed>
    requires head { AllowedHead head.now }
    requires sizes { FitsHead head.now picture.old }
    ensures shapes { SameShapes picture.old picture.new }
    ensures read { IfOk result (λ n. PartRead (planes_count head.now) n (λ left. planes_of picture.new ≡ padded head.now (planes_at head.now left)) (S.seen studio.old) (S.seen studio.new)) }
    ensures err { IfErr result (λ _. ReadFailedWithin (planes_count head.now) (S.seen studio.old) (S.seen studio.new)) }
{
    let mut piece = [0u8; PIECE];
    let mut row = [0u8; MOST_ROW];
    let (wide, high) = (head.width / 2, head.height / 2);
    let luma = read_plane(
        studio,
        &mut picture.y,
        head.width,
        head.height,
        &mut piece,
        &mut row,
    )?;
    if luma < head.height as usize * head.width as usize {
        return Ok(luma);
    }
    let cb = read_plane(studio, &mut picture.cb, wide, high, &mut piece, &mut row)?;
    if cb < high as usize * wide as usize {
        return Ok(luma + cb);
    }
    let cr = read_plane(studio, &mut picture.cr, wide, high, &mut piece, &mut row)?;
    Ok(luma + cb + cr)
}

// Reads the samples of the picture of this number behind its line, which has so many bytes.
fn read_samples<S: Studio>(
    studio: &mut S,
    head: &FilmHead,
    number: u32,
    line: usize,
    picture: &mut Picture,
) -> Result<bool, FrameFault>
    requires head { AllowedHead head.now }
    requires sizes { FitsHead head.now picture.old }
    requires line { line ≤ 1024 }
    ensures shapes { SameShapes picture.old picture.new }
    ensures end { PlanesEnd head.now number line (planes_of picture.new) (S.seen studio.old) (S.seen studio.new) result }
{
    let luma = head.width as usize * head.height as usize;
    let chroma = (head.width / 2) as usize * (head.height / 2) as usize;
    let all = luma + chroma + chroma;
    let read = match read_planes(studio, head, picture) {
        Ok(read) => read,
        Err(_) => return Err(FrameFault::ReadFault),
    };
    if read < all {
        return Err(FrameFault::CutFrame {
            picture: number,
            got: (line + read) as u32,
        });
    }
    Ok(true)
}

/// Reads the next picture of a film into `picture`, which has the sizes of the head rounded up to 16, and pads it by
/// its last column and its last row: `FRAME`, a line feed or a space and anything to the line feed, and then the samples
/// of the three planes row by row. `number` is how many pictures were read before, at most 1,000,000. `false` is the end
/// of the film: nothing was left. After a fault the picture's samples may be any. It takes no memory.
///
/// `NotFrame`: the first bytes left, up to five, are no front of `FRAME`, or the sixth is there and is neither a line feed
/// nor a space, or there is no line feed among 1024 bytes. `CutFrame`: else, where the bytes left are fewer than the line and
/// the samples; all of them were taken. `TooLong`: 1,000,000 pictures were read before, and a byte follows. `ReadFault`: a
/// read failed; some bytes of the picture were taken, but not all.
pub fn next_picture<S: Studio>(
    studio: &mut S,
    head: &FilmHead,
    number: u32,
    picture: &mut Picture,
) -> Result<bool, FrameFault>
    requires head { AllowedHead head.now }
    requires number { number ≤ 1000000 }
    requires sizes { FitsHead head.now picture.old }
    ensures shapes { SameShapes picture.old picture.new }
    ensures picture { result ≡ Ok true → (n : ℕ) × Took n (λ left. (n ≤ length left) × (frame_step (most_pictures - number) head.now left ≡ Next (planes_of picture.new) (drop n left))) (S.seen studio.old) (S.seen studio.new) }
    ensures end { result ≡ Ok false → Took 0 (λ left. left ≡ []) (S.seen studio.old) (S.seen studio.new) }
    ensures fault { IfErr result (FrameEnd head.now number (S.seen studio.old) (S.seen studio.new)) }
{
    if number == MOST_PICTURES {
        return end_of_film(studio);
    }
    let mut line = [0u8; MOST_LINE];
    match read_line(studio, &mut line) {
        Ok(LineEnd::Whole(length)) => {
            if is_unlike_frame(&line[..length]) {
                return Err(FrameFault::NotFrame { picture: number });
            }
            read_samples(studio, head, number, length, picture)
        }
        Ok(LineEnd::Cut(length)) => end_in_line(&line[..length], number),
        Ok(LineEnd::Long) => Err(FrameFault::NotFrame { picture: number }),
        Err(_) => Err(FrameFault::ReadFault),
    }
}
