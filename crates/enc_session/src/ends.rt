// How a session doesn't come to be, and how a group ends where not all of it is coded.
ghost use Rattle.std.specs.Prelude.{◌≡◌};
ghost use Rattle.enc_session.specs.Ends.{failed_in};

use enc_edge::Out;
use spec_words::command::SettingFault;

/// Why a session isn't opened.
#[derive(Clone, Copy, Debug, PartialEq, Eq)]
pub enum OpenEnd {
    /// A setting doesn't fit the film's head.
    Setting(SettingFault),
    /// Memory was wanting.
    OutOfMemory,
}

/// Why a group wasn't coded to its end.
#[derive(Clone, Copy, Debug, PartialEq, Eq)]
pub enum GroupEnd {
    /// Not even the coarsest coding of a picture fits.
    Buffer {
        /// Its place in display order, counted from 0.
        picture: u32,
        /// The bits of its coarsest access unit.
        need: u64,
        /// The bits that were there, which are fewer.
        have: u64,
    },
    /// Writing to an output failed.
    Write(Out),
}

// The output to which a write failed.
pub(crate) fn failed_output(end: &Result<(), GroupEnd>) -> Option<Out>
    ensures { result ≡ failed_in end.now }
{
    match end {
        Err(GroupEnd::Write(out)) => Some(*out),
        Ok(()) | Err(GroupEnd::Buffer { .. }) => None,
    }
}
