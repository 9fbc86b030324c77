// The places by number.
ghost use Rattle.std.specs.Prelude.{◌≡◌};
ghost use Rattle.enc_edge.specs.Places.{place_index, output_index};

use crate::{Out, Place};

// The outputs in order.
pub(crate) fn output_at(out: Out) -> usize
    ensures { result ≡ output_index out }
{
    match out {
        Out::Stream => 0,
        Out::Recon => 1,
        Out::Report => 2,
    }
}

// The input is first, then come the outputs in order.
pub(crate) fn place_at(place: Place) -> usize
    ensures { result ≡ place_index place }
{
    match place {
        Place::Input => 0,
        Place::Output(Out::Stream) => 1,
        Place::Output(Out::Recon) => 2,
        Place::Output(Out::Report) => 3,
    }
}
