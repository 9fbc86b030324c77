// How a run of `store` ends where not all is done.
ghost use Rattle.std.specs.Prelude.{◌≡◌};
ghost use Rattle.store_film.specs.Faults.{frame_end, head_end};

use enc_edge::Place;
use spec_film::{HeadFault, InputFault};
use y4m_film::FrameFault;

/// Why a film wasn't stored to its end.
#[derive(Clone, Copy, Debug, PartialEq, Eq)]
pub enum StoreEnd {
    /// A file couldn't be opened. Nothing was written then; where it is the input, nothing was read, and else the
    /// film's head and no more.
    Open(Place),
    /// Reading the input failed.
    Read,
    /// Writing or closing the stream failed.
    Write,
    /// The input isn't a film.
    Input(InputFault),
    /// Memory was wanting. The stream wasn't opened then, and of the input the film's head was read and no more.
    OutOfMemory,
}

// The end where no head was read.
pub(crate) fn head_end(fault: HeadFault) -> StoreEnd
    ensures { result ≡ head_end fault }
{
    match fault {
        HeadFault::ReadFault => StoreEnd::Read,
        fault => StoreEnd::Input(InputFault::Head(fault)),
    }
}

// The end where no picture was read.
pub(crate) fn frame_end(fault: FrameFault) -> StoreEnd
    ensures { result ≡ frame_end fault }
{
    match fault.input_fault() {
        Some(fault) => StoreEnd::Input(fault),
        None => StoreEnd::Read,
    }
}
