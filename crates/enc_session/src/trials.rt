// The trials of a picture.
ghost use Rattle.std.specs.Prelude.{◌≡◌, ◌≤◌, ◌<◌, ◌+◌, ◌%◌, ◌==◌, false, None, length};
ghost use Rattle.picture_coder.specs.Coders.{HasOwnSizes, HasPlans, IsFor, lent_reference, payload_room};
ghost use Rattle.picture_coder.specs.Jobs.{IsMoved};
ghost use Rattle.spec_coding.specs.Trials.{plain_trial, coarsest_trial};
ghost use Rattle.enc_session.specs.Asking.{SameCoder};
ghost use Rattle.enc_session.specs.Trying.{asked_by, trial_bits, TryLeft, PlainLeft, CoarsestLeft, PickLeft};

use bit_strings::BitBuf;
use picture_coder::{Job, PictureCoder};

/// A trial that fits: its quantisation parameter, and whether it is the coarsest coding.
#[derive(Clone, Copy)]
pub(crate) struct Pick {
    pub(crate) qp: u8,
    pub(crate) coarsest: bool,
}

// Codes the picture by the written choice, where its units fit behind what stands in the unit.
fn try_plain<R>(rt: &R, coder: &mut PictureCoder, job: &Job<'_>, qp: u8, unit: &mut BitBuf) -> bool
    requires sizes { HasOwnSizes coder.old }
    requires job { IsFor coder.old job.now }
    requires moved { IsMoved job.now }
    requires planned { HasPlans coder.old job.now }
    requires qp { qp ≤ 51 }
    requires room { unit.old.room ≤ length unit.old.text + payload_room coder.old }
    requires whole { length unit.old.text % 8 ≡ 0 }
    requires begun { (length unit.old.text == 0) ≡ false }
    ensures left { TryLeft (asked_by coder.old job.now) (plain_trial qp) unit.old unit.new (lent_reference coder.new) result }
    ensures sizes { HasOwnSizes coder.new }
    ensures job { IsFor coder.new job.now }
    ensures planned { HasPlans coder.new job.now }
    ensures asked { asked_by coder.new job.now ≡ asked_by coder.old job.now }
    ensures same { SameCoder coder.old coder.new }
{
    coder.code(rt, job, qp, unit).is_ok()
}

// Codes the picture by the written choice with rising quantisation parameters from this one on, until one fits behind
// what stands in the unit.
fn pick_plain<R>(
    rt: &R,
    coder: &mut PictureCoder,
    job: &Job<'_>,
    start: u8,
    unit: &mut BitBuf,
) -> Option<u8>
    requires sizes { HasOwnSizes coder.old }
    requires job { IsFor coder.old job.now }
    requires moved { IsMoved job.now }
    requires planned { HasPlans coder.old job.now }
    requires start { start ≤ 51 }
    requires room { unit.old.room ≤ length unit.old.text + payload_room coder.old }
    requires whole { length unit.old.text % 8 ≡ 0 }
    requires begun { (length unit.old.text == 0) ≡ false }
    ensures left { PlainLeft (asked_by coder.old job.now) start unit.old unit.new (lent_reference coder.new) result }
    ensures sizes { HasOwnSizes coder.new }
    ensures same { SameCoder coder.old coder.new }
{
    let mut qp = start;
    for _ in 0..(53 - start) / 3 {
        if try_plain(rt, coder, job, qp, unit) {
            return Some(qp);
        }
        qp += 3;
    }
    if try_plain(rt, coder, job, 51, unit) {
        return Some(51);
    }
    None
}

// The coarsest coding, where it fits behind what stands in the unit; else how many bits the whole unit needs.
fn pick_coarsest<R>(
    rt: &R,
    coder: &mut PictureCoder,
    job: &Job<'_>,
    unit: &mut BitBuf,
) -> Result<Pick, u64>
    requires sizes { HasOwnSizes coder.old }
    requires job { IsFor coder.old job.now }
    requires plain { job.now.moved ≡ None }
    requires short { length unit.old.text ≤ 65536 }
    requires room { unit.old.room ≤ length unit.old.text + payload_room coder.old }
    requires whole { length unit.old.text % 8 ≡ 0 }
    requires begun { (length unit.old.text == 0) ≡ false }
    ensures left { CoarsestLeft (asked_by coder.old job.now) unit.old unit.new (lent_reference coder.new) result }
    ensures sizes { HasOwnSizes coder.new }
    ensures same { SameCoder coder.old coder.new }
{
    if coder.coarsest(rt, job, unit).is_ok() {
        return Ok(Pick {
            qp: 51,
            coarsest: true,
        });
    }
    Err(whole_coarsest(rt, coder, job, unit))
}

// How many bits the coarsest access unit needs behind what stands in the unit.
fn whole_coarsest<R>(rt: &R, coder: &mut PictureCoder, job: &Job<'_>, unit: &BitBuf) -> u64
    requires sizes { HasOwnSizes coder.old }
    requires job { IsFor coder.old job.now }
    requires plain { job.now.moved ≡ None }
    requires short { length unit.now.text ≤ 65536 }
    ensures value { result ≡ trial_bits (length unit.now.text) (asked_by coder.old job.now) coarsest_trial }
    ensures sizes { HasOwnSizes coder.new }
    ensures same { SameCoder coder.old coder.new }
{
    unit.len() + coder.coarsest_bits(rt, job)
}

/// Picks the first trial whose access unit has at most `have` bits, and appends the units of its slices to those that
/// stand before them. `flat` is the job without its command, for the coarsest coding. An error says how many bits the
/// coarsest access unit needs, which is then the last trial that doesn't fit.
pub(crate) fn pick_trial<R>(
    rt: &R,
    coder: &mut PictureCoder,
    job: &Job<'_>,
    flat: &Job<'_>,
    start: u8,
    have: u64,
    unit: &mut BitBuf,
) -> Result<Pick, u64>
    requires sizes { HasOwnSizes coder.old }
    requires job { IsFor coder.old job.now }
    requires moved { IsMoved job.now }
    requires flat { IsFor coder.old flat.now }
    requires plain { flat.now.moved ≡ None }
    requires twins { asked_by coder.old flat.now ≡ asked_by coder.old job.now }
    requires planned { HasPlans coder.old job.now }
    requires start { start ≤ 51 }
    requires have { have ≤ payload_room coder.old }
    requires made { have ≤ unit.old.made }
    requires short { length unit.old.text ≤ 65536 }
    requires whole { length unit.old.text % 8 ≡ 0 }
    requires begun { (length unit.old.text == 0) ≡ false }
    ensures left { PickLeft (asked_by coder.old job.now) start have unit.old unit.new (lent_reference coder.new) result }
    ensures sizes { HasOwnSizes coder.new }
    ensures same { SameCoder coder.old coder.new }
{
    if unit.len() > have {
        return Err(whole_coarsest(rt, coder, flat, unit));
    }
    unit.limit(have);
    if let Some(qp) = pick_plain(rt, coder, job, start, unit) {
        return Ok(Pick {
            qp,
            coarsest: false,
        });
    }
    pick_coarsest(rt, coder, flat, unit)
}
