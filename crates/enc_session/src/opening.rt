// The memory of a session, all of which is taken at its start.
ghost use Rattle.std.specs.Prelude.{◌≡◌, ◌%◌, [], None, Ok, IfOk};
ghost use Rattle.spec_film.specs.Films.{AllowedHead};
ghost use Rattle.spec_words.specs.Choices.{early_of};
ghost use Rattle.spec_session.specs.Settings.{AreInRange, completed, settled};
ghost use Rattle.spec_session.specs.Encodings.{rate_of};
ghost use Rattle.spec_buffer.specs.Ledger.{fresh};
ghost use Rattle.buffer_control.specs.Seen.{rate_of as rate_in, spent_of};
ghost use Rattle.enc_session.specs.Ready.{unit_room};
ghost use Rattle.enc_session.specs.Sessions.{HasSlots};
ghost use Rattle.enc_session.specs.Beginning.{Begins, HasCoder};

use crate::engine::Engine;
use bit_strings::BitBuf;
use buffer_control::Ledger;
use picture_coder::PictureCoder;
use picture_planes::Picture;
use ref_lists::RefStore;
use spec_film::FilmHead;
use spec_words::command::Settings;
use std::alloc::{AllocError as OutOfMemory, Global};

/// The pictures of a group.
pub(crate) fn blank_slots(alloc: Global, head: &FilmHead) -> Result<Vec<Picture>, OutOfMemory>
    requires { AllowedHead head.now }
    ensures { IfOk result (λ slots. HasSlots head.now slots.items) }
{
    let mut slots = Vec::new(alloc);
    for _ in 0..5u32 {
        let blank = Picture::new(alloc, head.width, head.height)?;
        slots.push(blank)?;
    }
    Ok(slots)
}

// Room for an access unit.
fn blank_unit(alloc: Global, cpb: u32) -> Result<BitBuf, OutOfMemory>
    requires { cpb % 16 ≡ 0 }
    ensures { IfOk result (λ unit. unit ≡ record { text = []; room = unit_room cpb; made = unit_room cpb }) }
{
    BitBuf::with_room(alloc, cpb.max(65536) / 8)
}

// Room for the payload of one unit that stands around slices.
fn blank_payload(alloc: Global) -> Result<BitBuf, OutOfMemory>
    ensures { IfOk result (λ payload. payload ≡ record { text = []; room = 8192; made = 8192 }) }
{
    BitBuf::with_room(alloc, 1024)
}

// A coder of pictures of the film.
fn coder_for(
    alloc: Global,
    settings: &Settings,
    head: &FilmHead,
    level: u8,
) -> Result<PictureCoder, OutOfMemory>
    requires range { AreInRange settings.now }
    requires head { AllowedHead head.now }
    requires complete { completed settings.now head.now ≡ Ok (settled settings.now head.now level) }
    ensures { IfOk result (λ coder. HasCoder settings.now head.now coder) }
{
    PictureCoder::new(
        alloc,
        head.width,
        head.height,
        settings.slices,
        settings.workers,
        settings.cpb,
    )
}

// A ledger of which nothing was spent.
fn ledger_for(settings: &Settings, head: &FilmHead, level: u8) -> Ledger
    requires range { AreInRange settings.now }
    requires head { AllowedHead head.now }
    requires complete { completed settings.now head.now ≡ Ok (settled settings.now head.now level) }
    ensures rate { rate_in result ≡ rate_of (settled settings.now head.now level) }
    ensures nothing { spent_of result ≡ fresh settings.now.qp }
{
    Ledger::new(
        settings.rate,
        settings.cpb,
        settings.delay,
        head.num,
        head.den,
        settings.qp,
    )
}

/// What codes the pictures of a film with this head, by settings that were completed by it. Nothing was coded yet.
pub(crate) fn first_engine(
    alloc: Global,
    settings: &Settings,
    head: &FilmHead,
    level: u8,
) -> Result<Engine, OutOfMemory>
    requires range { AreInRange settings.now }
    requires early { early_of settings.now ≡ None }
    requires head { AllowedHead head.now }
    requires complete { completed settings.now head.now ≡ Ok (settled settings.now head.now level) }
    ensures { IfOk result (λ engine. Begins settings.now head.now level engine) }
{
    let coder = coder_for(alloc, settings, head, level)?;
    let store = RefStore::new(alloc, head.width, head.height, settings.refs)?;
    let unit = blank_unit(alloc, settings.cpb)?;
    let payload = blank_payload(alloc)?;
    Ok(Engine {
        settings: *settings,
        head: *head,
        level,
        coder,
        store,
        ledger: ledger_for(settings, head, level),
        idrs: 0,
        last_idr: 0,
        compared: 0,
        display: 0,
        number: 0,
        unit,
        payload,
    })
}
