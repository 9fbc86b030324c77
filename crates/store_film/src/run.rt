// The run of the command.
ghost use Rattle.store_film.specs.Leaving.{Leaves};

use crate::StoreEnd;
use crate::ends::head_end;
use crate::pictures::store_pictures;
use bit_strings::BitBuf;
use enc_edge::{Out, Place, Studio};
use picture_planes::Picture;
use std::alloc::Global;
use stored_picture::{payload_bytes, units_bytes};
use y4m_film::read_head;

/// Stores the film of one name as a stream under the other: each picture becomes an access unit of I_PCM macroblocks,
/// which keeps every sample.
///
/// All memory is taken behind the film's head, before the stream is opened.
pub fn store<S: Studio>(
    alloc: Global,
    input: &str,
    output: &str,
    studio: &mut S,
) -> Result<(), StoreEnd>
    // What each end leaves behind.
    ensures { Leaves input.now output.now (S.seen studio.old) (S.seen studio.new) result }
{
    match studio.open_in(input) {
        Ok(()) => {}
        Err(_) => return Err(StoreEnd::Open(Place::Input)),
    }
    let head = match read_head(studio) {
        Ok(head) => head,
        Err(fault) => return Err(head_end(fault)),
    };
    let Ok(mut picture) = Picture::new(alloc, head.width, head.height) else {
        return Err(StoreEnd::OutOfMemory);
    };
    let Ok(mut payload) = BitBuf::with_room(alloc, payload_bytes(&head)) else {
        return Err(StoreEnd::OutOfMemory);
    };
    let Ok(mut units) = BitBuf::with_room(alloc, units_bytes(&head)) else {
        return Err(StoreEnd::OutOfMemory);
    };
    match studio.open_out(Out::Stream, output) {
        Ok(()) => {}
        Err(_) => return Err(StoreEnd::Open(Place::Output(Out::Stream))),
    }
    store_pictures(studio, &head, &mut picture, &mut payload, &mut units)?;
    match studio.close_out(Out::Stream) {
        Ok(()) => Ok(()),
        Err(_) => Err(StoreEnd::Write),
    }
}
