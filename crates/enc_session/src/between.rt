// The B pictures of a group.
ghost use Rattle.std.specs.Prelude.{◌≡◌, ◌≤◌, ◌+◌, length, map, IfOk};
ghost use Rattle.std.specs.List.{AllByRecursion};
ghost use Rattle.picture_coder.specs.Sizes.{HasSizes};
ghost use Rattle.picture_planes.specs.Pictures.{planes_of};
ghost use Rattle.ref_lists.specs.Stored.{held_of};
ghost use Rattle.spec_session.specs.Encodings.{reorders};
ghost use Rattle.enc_session.specs.Going.{AreLate, BetweenLeft, IsBetween, paired};
ghost use Rattle.enc_session.specs.Ready.{Holds, settings_in, state_in, units_in};
ghost use Rattle.enc_session.specs.Stepping.{SameEngine};

use crate::GroupEnd;
use crate::engine::Engine;
use enc_edge::{Gate, Studio};
use enc_tables::PlanStep;
use picture_planes::Picture;

/// Codes the B pictures of a group, which stand in the first slots in display order, up to the first one that is
/// refused or can't be written; answers with how many were coded, which the slots then have as a decoder shows them.
pub(crate) fn code_between<R, S: Studio, G: Gate + Sync>(
    engine: &mut Engine,
    rt: &R,
    steps: &[PlanStep],
    slots: &mut [Picture],
    studio: &mut S,
    gate: &G,
) -> (usize, Result<(), GroupEnd>)
    requires holds { Holds engine.old }
    requires between { AllByRecursion (IsBetween (held_of engine.old.store)) steps.now }
    requires late { AreLate (reorders (settings_in engine.old)) (units_in engine.old) steps.now }
    requires few { units_in engine.old + length steps.now ≤ 1000000 }
    requires slots { length steps.now ≤ length slots.old }
    requires sizes { AllByRecursion (HasSizes engine.old.head.width engine.old.head.height) slots.old }
    ensures left { BetweenLeft (settings_in engine.old) (state_in engine.old) (paired steps.now (map planes_of slots.old)) (S.seen studio.old) (S.seen studio.new) (state_in engine.new) (map planes_of slots.new) result.0 result.1 }
    ensures within { result.0 ≤ length steps.now }
    ensures holds { IfOk result.1 (λ _. Holds engine.new) }
    ensures same { SameEngine engine.old engine.new }
    ensures store { engine.new.store ≡ engine.old.store }
    ensures slots { length slots.new ≡ length slots.old }
    ensures sizes { AllByRecursion (HasSizes engine.old.head.width engine.old.head.height) slots.new }
{
    for k in 0..steps.len() {
        match engine.code_picture(rt, steps[k], &mut slots[k], studio, gate) {
            Ok(()) => {}
            Err(end) => return (k, Err(end)),
        }
    }
    (steps.len(), Ok(()))
}
