// The pictures of a group are read into the slots of a session.
ghost use Rattle.std.specs.Prelude.{◌≡◌, ◌≤◌, ◌<◌, ◌+◌};
ghost use Rattle.std.specs.List.{All};
ghost use Rattle.spec_bits.specs.Bits.{IsByte};
ghost use Rattle.spec_film.specs.Films.{AllowedHead};
ghost use Rattle.spec_stream.specs.Pictures.{IsPicture};
ghost use Rattle.picture_planes.specs.Samples.{samples_of};
ghost use Rattle.picture_planes.specs.Pictures.{planes_of, SameShapes};
ghost use Rattle.y4m_film.specs.Sizes.{FitsHead};
ghost use Rattle.enc_session.specs.Sessions.{HasSlots, slots_of};
ghost use Rattle.encode_film.specs.Reading.{GroupRead, PictureRead};
ghost use Rattle.encode_film.specs.Slots.{SlotRead};

use crate::EncodeEnd;
use crate::ends::frame_end;
use enc_edge::Studio;
use enc_session::Session;
use picture_planes::{Picture, Plane};
use spec_film::{FilmHead, InputFault};
use y4m_film::{MOST_PICTURES, next_picture};

// What stands in a slice of bytes is below 256.
fn lemma_are_bytes(bytes: &[u8])
    ensures { All IsByte bytes.now }
{}

fn lemma_has_bytes(plane: &Plane)
    ensures { All IsByte (samples_of plane.now) }
{
    lemma_are_bytes(plane.rows_from(0, 0));
}

// A picture of the film's sizes is a picture of the film: its samples are bytes.
fn lemma_is_picture(head: &FilmHead, picture: &Picture)
    requires { FitsHead head.now picture.now }
    ensures { IsPicture head.now (planes_of picture.now) }
{
    lemma_has_bytes(&picture.y);
    lemma_has_bytes(&picture.cb);
    lemma_has_bytes(&picture.cr);
}

// Reads the picture of this number. Behind the last picture that a film may have, the input has to end.
pub(crate) fn read_picture<S: Studio>(
    studio: &mut S,
    head: &FilmHead,
    number: u32,
    picture: &mut Picture,
) -> Result<bool, EncodeEnd>
    requires head { AllowedHead head.now }
    requires number { number ≤ 1000000 }
    requires sizes { FitsHead head.now picture.old }
    ensures shapes { SameShapes picture.old picture.new }
    ensures read { PictureRead head.now number (planes_of picture.new) (S.seen studio.old) (S.seen studio.new) result }
{
    match next_picture(studio, head, number, picture) {
        Ok(true) => {}
        Ok(false) => return Ok(false),
        Err(fault) => return Err(frame_end(fault)),
    }
    if number == MOST_PICTURES {
        return Err(EncodeEnd::Input(InputFault::TooLong));
    }
    Ok(true)
}

// Reads the picture of this number into a slot.
pub(crate) fn read_slot<S: Studio>(
    studio: &mut S,
    head: &FilmHead,
    session: &mut Session,
    number: u32,
    slot: u32,
) -> Result<bool, EncodeEnd>
    requires head { AllowedHead head.now }
    requires number { number ≤ 1000000 }
    requires slots { HasSlots head.now (slots_of session.old) }
    requires slot { slot ≤ 4 }
    ensures engine { session.new.engine ≡ session.old.engine }
    ensures read { SlotRead head.now number slot (slots_of session.old) (slots_of session.new) (S.seen studio.old) (S.seen studio.new) result }
{
    let picture = session.slot(slot);
    let read = read_picture(studio, head, number, picture);
    lemma_is_picture(head, picture);
    read
}

// Reads the pictures of a group into the slots, at most so many, from this place in display order on; fewer where the
// film ends before.
pub(crate) fn read_group<S: Studio>(
    studio: &mut S,
    head: &FilmHead,
    session: &mut Session,
    place: u32,
    most: u32,
) -> Result<u32, EncodeEnd>
    requires head { AllowedHead head.now }
    requires place { place < 1000000 }
    requires slots { HasSlots head.now (slots_of session.old) }
    requires most { most ≤ 5 }
    ensures engine { session.new.engine ≡ session.old.engine }
    ensures slots { HasSlots head.now (slots_of session.new) }
    ensures read { GroupRead head.now place most (slots_of session.new) (S.seen studio.old) (S.seen studio.new) result }
{
    for got in 0..most {
        match read_slot(studio, head, session, place + got, got) {
            Ok(true) => {}
            Ok(false) => return Ok(got),
            Err(end) => return Err(end),
        }
    }
    Ok(most)
}
