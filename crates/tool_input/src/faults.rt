// Why a program stops, and what it says then.
use bit_strings::Full;
use std::alloc::AllocError;
use std::io;
use std::process::ExitCode;
use thiserror::Error;

/// Why a program beside the encoder stops.
#[derive(Debug, Drop, Error)]
pub enum Fault {
    #[error("out of memory")]
    OutOfMemory,
    /// The system's words or the input weren't given, or the output wasn't taken.
    #[error("reading or writing failed")]
    Outside,
    /// The words are other ones than these.
    #[error("the words are: {0}")]
    Words(&'static str),
    /// A line, counted from 1, isn't this.
    #[error("line {0} isn't {1}")]
    Line(usize, &'static str),
    /// The numbers of the input aren't this.
    #[error("the input isn't {0}")]
    Input(&'static str),
    /// Bits don't fit into the room that they have.
    #[error("the bits don't fit")]
    Full,
}

impl From<AllocError> for Fault {
    fn from(_: AllocError) -> Fault {
        Fault::OutOfMemory
    }
}

impl From<io::Error> for Fault {
    fn from(_: io::Error) -> Fault {
        Fault::Outside
    }
}

impl From<Full> for Fault {
    fn from(_: Full) -> Fault {
        Fault::Full
    }
}

/// How a program ends: with status 0, or with a fault on standard error and status 2.
pub fn ended(rt: &HostRuntime, end: Result<(), Fault>) -> ExitCode {
    match end {
        Ok(()) => ExitCode::from(0),
        Err(fault) => {
            // The status tells of the fault where standard error takes no line.
            let _ = eprintln!(rt; "{fault}");
            ExitCode::from(2)
        }
    }
}
