// The outputs are opened and closed.
ghost use Rattle.std.specs.Prelude.{ℕ, List};
ghost use Rattle.encode_film.specs.Calls.{OutputsClosed, OutputsOpened};
ghost use Rattle.encode_film.specs.Outputs.{named};

use crate::EncodeEnd;
use enc_edge::{Out, Place, Studio};
use spec_words::command::Outputs;

// Opens the stream, the reconstruction and the report under their names.
pub(crate) fn open_outputs<S: Studio>(studio: &mut S, outputs: &Outputs) -> Result<(), EncodeEnd>
    ensures { (input : List ℕ) → OutputsOpened (named input outputs.now) (S.seen studio.old) (S.seen studio.new) result }
{
    match studio.open_out(Out::Stream, outputs.stream.as_str()) {
        Ok(()) => {}
        Err(_) => return Err(EncodeEnd::Open(Place::Output(Out::Stream))),
    }
    match studio.open_out(Out::Recon, outputs.recon.as_str()) {
        Ok(()) => {}
        Err(_) => return Err(EncodeEnd::Open(Place::Output(Out::Recon))),
    }
    match studio.open_out(Out::Report, outputs.report.as_str()) {
        Ok(()) => Ok(()),
        Err(_) => Err(EncodeEnd::Open(Place::Output(Out::Report))),
    }
}

// Closes the outputs in the same order.
pub(crate) fn close_outputs<S: Studio>(studio: &mut S) -> Result<(), EncodeEnd>
    ensures { OutputsClosed (S.seen studio.old) (S.seen studio.new) result }
{
    match studio.close_out(Out::Stream) {
        Ok(()) => {}
        Err(_) => return Err(EncodeEnd::Write(Out::Stream)),
    }
    match studio.close_out(Out::Recon) {
        Ok(()) => {}
        Err(_) => return Err(EncodeEnd::Write(Out::Recon)),
    }
    match studio.close_out(Out::Report) {
        Ok(()) => Ok(()),
        Err(_) => Err(EncodeEnd::Write(Out::Report)),
    }
}
