// The groups of a film are read and coded, one after another.
ghost use Rattle.std.specs.Prelude.{◌≡◌, ◌≤◌, ◌<◌, ◌+◌, map, take, IfOk};
ghost use Rattle.spec_film.specs.Films.{AllowedHead};
ghost use Rattle.picture_planes.specs.Pictures.{planes_of};
ghost use Rattle.spec_plan.specs.Plan.{next_number};
ghost use Rattle.spec_session.specs.Settings.{AreInRange};
ghost use Rattle.spec_session.specs.Encodings.{encoding_from, start};
ghost use Rattle.spec_session.specs.Groups.{first_place, full_at, group_steps, place_behind};
ghost use Rattle.enc_session.specs.Sessions.{settings_of, state_of, place_of, slots_of, HasSlots, IsReady};
ghost use Rattle.encode_film.specs.Calls.{EndRead, GroupCoded, Settles};
ghost use Rattle.encode_film.specs.Groups.{GroupsLeft, PicturesLeft};

use crate::EncodeEnd;
use crate::ends::group_end;
use crate::lines::{put_heads, put_totals};
use crate::reading::{read_group, read_slot};
use enc_edge::{Gate, Studio};
use enc_session::Session;
use gop_plan::{group, wanted};
use spec_film::FilmHead;
use spec_words::command::Settings;
use y4m_film::MOST_PICTURES;

// The number of the reference picture of the group behind the one at this place.
fn number_behind(idr: u32, place: u32, number: u16) -> u16
    requires period { 1 ≤ idr }
    requires few { number ≤ 600 }
    ensures { result ≡ next_number idr place number }
{
    if place % idr == 0 { 1 } else { number + 1 }
}

// Codes the group of the first pictures in the slots.
fn code_group<R, S: Studio, G: Gate + Sync>(
    rt: &R,
    studio: &mut S,
    gate: &G,
    settings: &Settings,
    session: &mut Session,
    place: u32,
    number: u16,
    got: u32,
) -> Result<(), EncodeEnd>
    requires range { AreInRange settings.now }
    requires idr { (settings_of session.old).idr ≡ settings.now.idr }
    requires display { (place_of session.old).display ≡ place }
    requires number { (place_of session.old).number ≡ number }
    requires numbers { number ≤ 600 }
    requires ready { IsReady session.old }
    requires slots { HasSlots (settings_of session.old).head (slots_of session.old) }
    requires some { 1 ≤ got }
    requires most { got ≤ full_at (settings_of session.old) (place_of session.old) }
    requires five { got ≤ 5 }
    requires few { place + got ≤ 1000000 }
    ensures group { GroupCoded (settings_of session.old) (state_of session.old) (encoding_from (settings_of session.old) (state_of session.old) (group_steps (settings_of session.old) (place_of session.old) (take got (map planes_of (slots_of session.old))))) (S.seen studio.old) (S.seen studio.new) (state_of session.new) result }
    ensures settings { settings_of session.new ≡ settings_of session.old }
    ensures place { IfOk result (λ _. place_of session.new ≡ place_behind (settings_of session.old) (place_of session.old) got) }
    ensures ready { IfOk result (λ _. IsReady session.new) }
    ensures slots { IfOk result (λ _. HasSlots (settings_of session.old).head (slots_of session.new)) }
{
    let steps = group(place, got, settings.idr, number);
    match session.code_group(rt, steps.as_slice(), studio, gate) {
        Ok(()) => Ok(()),
        Err(end) => Err(group_end(end)),
    }
}

// Writes what stands before the pictures, then reads and codes all groups.
fn encode_groups<R, S: Studio, G: Gate + Sync>(
    rt: &R,
    studio: &mut S,
    gate: &G,
    head: &FilmHead,
    settings: &Settings,
    session: &mut Session,
) -> Result<(), EncodeEnd>
    requires head { AllowedHead head.now }
    requires range { AreInRange settings.now }
    requires settled { Settles settings.now head.now (settings_of session.old) }
    requires state { state_of session.old ≡ start (settings_of session.old) }
    requires place { place_of session.old ≡ first_place }
    requires ready { IsReady session.old }
    requires slots { HasSlots head.now (slots_of session.old) }
    ensures { GroupsLeft head.now (settings_of session.old) (S.seen studio.old) (S.seen studio.new) (state_of session.new) result }
{
    match put_heads(studio, head, settings, session) {
        Ok(()) => {}
        Err(end) => return Err(end),
    }
    let mut place = 0;
    let mut number = 0;
    while place < MOST_PICTURES {
        let most = wanted(place, settings.idr, settings.bframes);
        let got = match read_group(studio, head, session, place, most) {
            Ok(got) => got,
            Err(end) => return Err(end),
        };
        if got == 0 {
            return Ok(());
        }
        match code_group(rt, studio, gate, settings, session, place, number, got) {
            Ok(()) => {}
            Err(end) => return Err(end),
        }
        if got < most {
            return Ok(());
        }
        number = number_behind(settings.idr, place, number);
        place += most;
    }
    end_film(studio, head, session)
}

// Behind the last picture that a film may have, the input has to end.
fn end_film<S: Studio>(
    studio: &mut S,
    head: &FilmHead,
    session: &mut Session,
) -> Result<(), EncodeEnd>
    requires head { AllowedHead head.now }
    requires slots { HasSlots head.now (slots_of session.old) }
    ensures engine { session.new.engine ≡ session.old.engine }
    ensures end { EndRead head.now (S.seen studio.old) (S.seen studio.new) result }
{
    match read_slot(studio, head, session, MOST_PICTURES, 0) {
        Ok(_) => Ok(()),
        Err(end) => Err(end),
    }
}

// Writes all that is due for a film whose outputs stand open.
pub(crate) fn encode_pictures<R, S: Studio, G: Gate + Sync>(
    rt: &R,
    studio: &mut S,
    gate: &G,
    head: &FilmHead,
    settings: &Settings,
    session: &mut Session,
) -> Result<(), EncodeEnd>
    requires head { AllowedHead head.now }
    requires range { AreInRange settings.now }
    requires settled { Settles settings.now head.now (settings_of session.old) }
    requires state { state_of session.old ≡ start (settings_of session.old) }
    requires place { place_of session.old ≡ first_place }
    requires ready { IsReady session.old }
    requires slots { HasSlots head.now (slots_of session.old) }
    ensures { PicturesLeft head.now (settings_of session.old) (S.seen studio.old) (S.seen studio.new) result }
{
    match encode_groups(rt, studio, gate, head, settings, session) {
        Ok(()) => {}
        Err(end) => return Err(end),
    }
    put_totals(studio, session)
}
