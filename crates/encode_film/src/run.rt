// The run of the command.
ghost use Rattle.std.specs.Prelude.{◌≡◌, ℕ, List, Some, None};
ghost use Rattle.enc_edge.specs.Seen.{Seen};
ghost use Rattle.spec_film.specs.Films.{film_of};
ghost use Rattle.spec_words.specs.Choices.{early_of};
ghost use Rattle.spec_session.specs.Settings.{AreInRange};
ghost use Rattle.encode_film.specs.Answering.{Answers};
ghost use Rattle.encode_film.specs.Leaving.{Leaves};
ghost use Rattle.encode_film.specs.Outputs.{named};
ghost use Rattle.encode_film.specs.Runs.{NoFault};

use crate::EncodeEnd;
use crate::ends::{head_end, open_end};
use crate::groups::encode_pictures;
use crate::places::{close_outputs, open_outputs};
use enc_edge::{Gate, Place, Studio};
use enc_session::Session;
use spec_words::command::{Outputs, Settings};
use y4m_film::read_head;

fn encode_film<R: AllocGlobal, S: Studio, G: Gate + Sync>(
    rt: &R,
    input: &str,
    outputs: &Outputs,
    settings: &Settings,
    studio: &mut S,
    gate: &G,
) -> Result<(), EncodeEnd>
    requires range { AreInRange settings.now }
    requires early { early_of settings.now ≡ None }
    ensures { Leaves (named input.now outputs.now) settings.now (S.seen studio.old) (S.seen studio.new) result }
{
    match studio.open_in(input) {
        Ok(()) => {}
        Err(_) => return Err(EncodeEnd::Open(Place::Input)),
    }
    let head = match read_head(studio) {
        Ok(head) => head,
        Err(fault) => return Err(head_end(fault)),
    };
    let mut session = match Session::open(rt.alloc(), settings, &head) {
        Ok(session) => session,
        Err(end) => return Err(open_end(end)),
    };
    match open_outputs(studio, outputs) {
        Ok(()) => {}
        Err(end) => return Err(end),
    }
    match encode_pictures(rt, studio, gate, &head, settings, &mut session) {
        Ok(()) => {}
        Err(end) => return Err(end),
    }
    close_outputs(studio)
}

/// Encodes the film of this name: the stream of its access units, the film that a decoder shows of it, and a report
/// with a line for each picture. Pictures are read and coded in groups.
///
/// Words and settings that need no film come before it. All memory is taken behind the film's head, before an output
/// is opened; but for that of each picture's desk, without which pictures are planned by one thread.
pub fn encode<R: AllocGlobal, S: Studio, G: Gate + Sync>(
    rt: &R,
    input: &str,
    outputs: &Outputs,
    settings: &Settings,
    studio: &mut S,
    gate: &G,
) -> Result<(), EncodeEnd>
    requires range { AreInRange settings.now }
    requires early { early_of settings.now ≡ None }

    // What each end leaves behind.
    ensures left { Leaves (named input.now outputs.now) settings.now (S.seen studio.old) (S.seen studio.new) result }

    // Where nothing outside failed, the film and the settings alone decide the end, or memory was wanting.
    ensures answers { (left : List ℕ) → (S.seen studio.old).input.bytes ≡ Some left → NoFault (S.seen studio.old) (S.seen studio.new) → Answers settings.now (film_of left) result }
{
    encode_film(rt, input, outputs, settings, studio, gate)
}
