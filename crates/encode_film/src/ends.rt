// How an encoding ends where not all is done.
ghost use Rattle.std.specs.Prelude.{◌≡◌};
ghost use Rattle.encode_film.specs.Faults.{frame_end, group_end, head_end, open_end};

use enc_edge::{Out, Place};
use enc_session::{GroupEnd, OpenEnd};
use spec_film::{HeadFault, InputFault};
use spec_words::command::SettingFault;
use y4m_film::FrameFault;

/// Why a film wasn't encoded to its end.
#[derive(Clone, Copy, Debug, PartialEq, Eq)]
pub enum EncodeEnd {
    /// A file couldn't be opened. Nothing was written then; where it is the input, nothing was read, and else the
    /// film's head and no more.
    Open(Place),
    /// Reading the input failed.
    Read,
    /// Writing or closing an output failed.
    Write(Out),
    /// The input isn't a film.
    Input(InputFault),
    /// A setting doesn't fit the film's head. No output was opened then.
    Setting(SettingFault),
    /// Not even the coarsest coding of a picture fits the buffer.
    Buffer {
        /// The picture's place in display order, counted from 0.
        picture: u32,
        /// The bits of its coarsest access unit.
        need: u64,
        /// The bits that were there, which are fewer.
        have: u64,
    },
    /// Memory was wanting. No output was opened then, and of the input the film's head was read and no more.
    OutOfMemory,
}

// The end where no head was read.
pub(crate) fn head_end(fault: HeadFault) -> EncodeEnd
    ensures { result ≡ head_end fault }
{
    match fault {
        HeadFault::ReadFault => EncodeEnd::Read,
        fault => EncodeEnd::Input(InputFault::Head(fault)),
    }
}

// The end where no picture was read.
pub(crate) fn frame_end(fault: FrameFault) -> EncodeEnd
    ensures { result ≡ frame_end fault }
{
    match fault.input_fault() {
        Some(fault) => EncodeEnd::Input(fault),
        None => EncodeEnd::Read,
    }
}

// The end where no session was opened.
pub(crate) fn open_end(end: OpenEnd) -> EncodeEnd
    ensures { result ≡ open_end end }
{
    match end {
        OpenEnd::Setting(fault) => EncodeEnd::Setting(fault),
        OpenEnd::OutOfMemory => EncodeEnd::OutOfMemory,
    }
}

// The end where a group wasn't coded to its end.
pub(crate) fn group_end(end: GroupEnd) -> EncodeEnd
    ensures { result ≡ group_end end }
{
    match end {
        GroupEnd::Buffer {
            picture,
            need,
            have,
        } => EncodeEnd::Buffer {
            picture,
            need,
            have,
        },
        GroupEnd::Write(out) => EncodeEnd::Write(out),
    }
}
