// How a run ends, and what the program tells of it.
ghost use Rattle.std.specs.Prelude.{◌≡◌, ◌≤◌, ◌+◌, ◌++◌, decimal, length};
ghost use Rattle.arrayvec.specs.ArrayString.{array_string_len};
ghost use Rattle.encode_cli.specs.Told.{buffer_line, input_line, line_of, outcome_of, refused_picture, status_of, stored_outcome, word_line};

use arrayvec::ArrayString;
use enc_edge::{Out, Place};
use encode_film::EncodeEnd;
use encode_words::{SettingFault, WordFault};
use itoa::Buffer;
use spec_film::InputFault;
use store_film::StoreEnd;
use y4m_film::MOST_PICTURES;

/// How a run ends.
#[derive(Clone, Copy, Debug, PartialEq, Eq)]
pub enum Outcome {
    /// The film was read to its end, and all was written and closed.
    Done,
    /// The words are no command.
    Words(WordFault),
    /// A file couldn't be opened. Nothing was written then; where it is the input, nothing was read, and else the
    /// film's head and no more.
    Open(Place),
    /// Reading the input failed.
    Read,
    /// Writing or closing an output failed.
    Write(Out),
    /// The input isn't a film: its head is none, or a picture.
    Input(InputFault),
    /// A setting is refused: whatever the film is, and nothing was opened then; or by the film's head, and no output
    /// was opened then.
    Setting(SettingFault),
    /// Not even the coarsest coding of a picture fits the buffer.
    Buffer {
        /// The picture's place in display order, counted from 0.
        picture: u32,
        /// The bits of its coarsest access unit.
        need: u64,
        /// The bits that were there, which are fewer.
        have: u64,
    },
    /// Memory was wanting. No output was opened then, and of the input at most the film's head was read.
    OutOfMemory,
}

/// What the end of an encoding is to the program.
pub fn outcome_of(ended: Result<(), EncodeEnd>) -> Outcome
    ensures { result ≡ outcome_of ended }
{
    match ended {
        Ok(()) => Outcome::Done,
        Err(EncodeEnd::Open(place)) => Outcome::Open(place),
        Err(EncodeEnd::Read) => Outcome::Read,
        Err(EncodeEnd::Write(out)) => Outcome::Write(out),
        Err(EncodeEnd::Input(fault)) => Outcome::Input(fault),
        Err(EncodeEnd::Setting(fault)) => Outcome::Setting(fault),
        Err(
            EncodeEnd::Buffer {
                picture,
                need,
                have,
            },
        ) => Outcome::Buffer {
            picture,
            need,
            have,
        },
        Err(EncodeEnd::OutOfMemory) => Outcome::OutOfMemory,
    }
}

/// What the end of storing is to the program.
pub fn stored_outcome(ended: Result<(), StoreEnd>) -> Outcome
    ensures { result ≡ stored_outcome ended }
{
    match ended {
        Ok(()) => Outcome::Done,
        Err(StoreEnd::Open(place)) => Outcome::Open(place),
        Err(StoreEnd::Read) => Outcome::Read,
        Err(StoreEnd::Write) => Outcome::Write(Out::Stream),
        Err(StoreEnd::Input(fault)) => Outcome::Input(fault),
        Err(StoreEnd::OutOfMemory) => Outcome::OutOfMemory,
    }
}

/// The exit status.
pub fn status(outcome: &Outcome) -> u8
    ensures { result ≡ status_of outcome.now }
{
    match outcome {
        Outcome::Done => 0,
        Outcome::Words(_) => 2,
        Outcome::Input(_) => 3,
        Outcome::Setting(_) => 4,
        Outcome::Buffer { .. } => 5,
        Outcome::Read => 6,
        Outcome::Write(_) => 7,
        Outcome::Open(_) => 8,
        Outcome::OutOfMemory => 9,
    }
}

// The line of an answer without numbers; empty for the others.
fn line_text(outcome: &Outcome) -> &'static str
    ensures text { result.now ≡ word_line outcome.now }
    ensures short { length result.now ≤ 96 }
{
    match outcome {
        Outcome::Done | Outcome::Input(_) | Outcome::Buffer { .. } => "",
        Outcome::Words(_) => "words refused",
        Outcome::Setting(_) => "setting refused",
        Outcome::Read => "read failed",
        Outcome::Write(Out::Stream) => "write failed: stream",
        Outcome::Write(Out::Recon) => "write failed: recon",
        Outcome::Write(Out::Report) => "write failed: report",
        Outcome::Open(Place::Input) => "open failed: input",
        Outcome::Open(Place::Output(Out::Stream)) => "open failed: stream",
        Outcome::Open(Place::Output(Out::Recon)) => "open failed: recon",
        Outcome::Open(Place::Output(Out::Report)) => "open failed: report",
        Outcome::OutOfMemory => "out of memory",
    }
}

// The place in the input where it is refused: nothing for its head, else the picture's number, counted from 0.
fn refused_picture(fault: &InputFault) -> Option<u32>
    ensures { result ≡ refused_picture fault.now }
{
    match fault {
        InputFault::Head(_) => None,
        InputFault::NotFrame { picture } | InputFault::CutFrame { picture, .. } => Some(*picture),
        InputFault::TooLong => Some(MOST_PICTURES),
    }
}

// The line of an input that is refused.
fn input_line(fault: &InputFault) -> ArrayString<96>
    ensures { result.bytes ≡ input_line fault.now }
{
    let mut line = ArrayString::new();
    line.push_str("input refused");
    if let Some(picture) = refused_picture(fault) {
        let mut number = Buffer::new();
        line.push_str(" at picture ");
        line.push_str(number.format(picture));
    }
    line
}

// Appends a number in decimal digits.
fn push_number(line: &mut ArrayString<96>, number: u64)
    requires room { array_string_len line.old + 20 ≤ 96 }
    ensures bytes { line.new.bytes ≡ line.old.bytes ++ decimal number }
    ensures room { array_string_len line.new ≤ array_string_len line.old + 20 }
{
    let mut buffer = Buffer::new();
    line.push_str(buffer.format(number));
}

// The line of a picture that doesn't fit the buffer.
fn buffer_line(picture: u32, need: u64, have: u64) -> ArrayString<96>
    ensures { result.bytes ≡ buffer_line picture need have }
{
    let mut line = ArrayString::new();
    line.push_str("picture ");
    push_number(&mut line, picture as u64);
    line.push_str(" needs ");
    push_number(&mut line, need);
    line.push_str(" bits of ");
    push_number(&mut line, have);
    line
}

/// The line for standard error, without its line feed; empty where nothing is to be printed.
pub fn fault_line(outcome: &Outcome) -> ArrayString<96>
    ensures { result.bytes ≡ line_of outcome.now }
{
    if let Outcome::Input(fault) = outcome {
        return input_line(fault);
    }
    if let Outcome::Buffer {
        picture,
        need,
        have,
    } = outcome
    {
        return buffer_line(*picture, *need, *have);
    }
    let mut line = ArrayString::new();
    line.push_str(line_text(outcome));
    line
}
