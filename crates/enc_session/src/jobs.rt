// A picture is planned and coded, by the references that are held.
ghost use Rattle.std.specs.Prelude.{◌≡◌, ◌≤◌, ◌%◌, ◌==◌, false, length, pos};
ghost use Rattle.picture_planes.specs.Pictures.{planes_of};
ghost use Rattle.ref_lists.specs.Stored.{held_of};
ghost use Rattle.picture_coder.specs.Coders.{HasOwnSizes, lent_reference, payload_room};
ghost use Rattle.enc_session.specs.Asking.{asked_of, GoesWith, IsSource, MayFollow, SameCoder, SlicesLeft};

use crate::lists::move_in_lists;
use crate::trials::{Pick, pick_trial};
use bit_strings::BitBuf;
use enc_edge::Gate;
use enc_tables::PlanStep;
use picture_coder::{Job, PictureCoder};
use picture_planes::Picture;
use ref_lists::{Lists, RefStore};
use spec_words::command::Settings;

// A picture order count, as the store has it.
fn order_count(poc: u16) -> i32
    ensures { result ≡ pos poc }
{
    i32::from(poc)
}

// The job of a picture before which so many IDR pictures were coded.
fn job_of<'a>(
    settings: &Settings,
    idrs: u32,
    step: PlanStep,
    source: &'a Picture,
    lists: &'a Lists<'a>,
    moved: Option<u16>,
) -> Job<'a>
    ensures source { result.source.now ≡ source.now }
    ensures lists { result.lists.now ≡ lists.now }
    ensures step { result.step ≡ step }
    ensures idr_id { result.idr_id ≡ idrs % 2 }
    ensures slices { result.slices ≡ settings.now.slices }
    ensures workers { result.workers ≡ settings.now.workers }
    ensures range { result.range ≡ settings.now.range }
    ensures t8x8 { result.t8x8 ≡ settings.now.t8x8 }
    ensures moved { result.moved ≡ moved }
{
    Job {
        source,
        lists,
        step,
        idr_id: (idrs % 2) as u8,
        slices: settings.slices,
        workers: settings.workers,
        range: settings.range,
        t8x8: settings.t8x8,
        moved,
    }
}

/// Plans the picture of a step, and appends the units of its slices to those that stand before them, by the first of
/// its trials whose access unit has at most `have` bits; answers with that trial and with how many vectors were
/// compared. An error says how many bits the coarsest access unit needs, where none fits.
pub(crate) fn code_slices<R, G: Gate + Sync>(
    rt: &R,
    coder: &mut PictureCoder,
    store: &RefStore,
    settings: &Settings,
    idrs: u32,
    step: PlanStep,
    source: &Picture,
    start: u8,
    have: u64,
    gate: &G,
    unit: &mut BitBuf,
) -> Result<(Pick, u64), u64>
    requires sizes { HasOwnSizes coder.old }
    requires together { GoesWith coder.old settings.now store.now }
    requires step { MayFollow store.now step }
    requires source { IsSource coder.old source.now }
    requires start { start ≤ 51 }
    requires have { have ≤ payload_room coder.old }
    requires made { have ≤ unit.old.made }
    requires short { length unit.old.text ≤ 65536 }
    requires whole { length unit.old.text % 8 ≡ 0 }
    requires begun { (length unit.old.text == 0) ≡ false }
    ensures left { SlicesLeft (asked_of coder.old settings.now idrs step (held_of store.now) (planes_of source.now)) start have unit.old unit.new (lent_reference coder.new) result }
    ensures sizes { HasOwnSizes coder.new }
    ensures same { SameCoder coder.old coder.new }
{
    let poc = order_count(step.poc);
    let mut lists = store.lists(step.kind, poc);
    let flat_lists = store.lists(step.kind, poc);
    let moved = move_in_lists(&mut lists, step.kind, source);
    let job = job_of(settings, idrs, step, source, &lists, moved);
    let flat = job_of(settings, idrs, step, source, &flat_lists, None);
    let compared = coder.plan(rt, &job, gate);
    let pick = pick_trial(rt, coder, &job, &flat, start, have, unit)?;
    Ok((pick, compared))
}
