// The pictures of a film are stored, one after another.
ghost use Rattle.std.specs.Prelude.{◌≤◌, ◌*◌};
ghost use Rattle.spec_film.specs.Films.{AllowedHead};
ghost use Rattle.stored_picture.specs.Rooms.{payload_most, units_most};
ghost use Rattle.y4m_film.specs.Sizes.{FitsHead};
ghost use Rattle.store_film.specs.Pictures.{EndLeft, PicturesLeft};

use crate::StoreEnd;
use crate::ends::frame_end;
use bit_strings::BitBuf;
use enc_edge::{Out, Studio, write_full};
use picture_planes::Picture;
use spec_film::{FilmHead, InputFault};
use stored_picture::write_access_unit;
use y4m_film::{MOST_PICTURES, next_picture};

// Stores the pictures that are left, one after another.
pub(crate) fn store_pictures<S: Studio>(
    studio: &mut S,
    head: &FilmHead,
    picture: &mut Picture,
    payload: &mut BitBuf,
    units: &mut BitBuf,
) -> Result<(), StoreEnd>
    requires head { AllowedHead head.now }
    requires picture { FitsHead head.now picture.old }
    requires payload { 8 * payload_most head.now ≤ payload.old.room }
    requires units { 8 * units_most head.now ≤ units.old.room }
    ensures { PicturesLeft head.now (S.seen studio.old) (S.seen studio.new) result }
{
    for number in 0..MOST_PICTURES {
        match next_picture(studio, head, number, picture) {
            Ok(true) => {}
            Ok(false) => return Ok(()),
            Err(fault) => return Err(frame_end(fault)),
        }
        write_access_unit(units, payload, head, number, picture);
        match write_full(studio, Out::Stream, units.bytes()) {
            Ok(()) => {}
            Err(_) => return Err(StoreEnd::Write),
        }
    }
    end_pictures(studio, head, picture)
}

// Behind the last picture that a film may have, the input has to end.
fn end_pictures<S: Studio>(
    studio: &mut S,
    head: &FilmHead,
    picture: &mut Picture,
) -> Result<(), StoreEnd>
    requires head { AllowedHead head.now }
    requires picture { FitsHead head.now picture.old }
    ensures { EndLeft head.now (S.seen studio.old) (S.seen studio.new) result }
{
    match next_picture(studio, head, MOST_PICTURES, picture) {
        Ok(true) => Err(StoreEnd::Input(InputFault::TooLong)),
        Ok(false) => Ok(()),
        Err(fault) => Err(frame_end(fault)),
    }
}
