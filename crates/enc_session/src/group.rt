// All pictures of a group.
ghost use Rattle.std.specs.Prelude.{◌≡◌, ◌≤◌, ◌+◌, length, map, take, IfOk};
ghost use Rattle.std.specs.List.{AllByRecursion};
ghost use Rattle.picture_coder.specs.Sizes.{HasSizes};
ghost use Rattle.picture_planes.specs.Pictures.{planes_of};
ghost use Rattle.ref_lists.specs.Stored.{held_of, width_of, height_of};
ghost use Rattle.spec_plan.specs.Plan.{group};
ghost use Rattle.spec_session.specs.Groups.{full_at, group_steps};
ghost use Rattle.enc_session.specs.Grouped.{GoneOn, Passed, StepsLeft};
ghost use Rattle.enc_session.specs.Ready.{Keeps, Holds, settings_in, state_in, place_in};
ghost use Rattle.enc_session.specs.Showing.{newest_planes};
ghost use Rattle.enc_session.specs.Stepping.{SameEngine};

use crate::GroupEnd;
use crate::between::code_between;
use crate::engine::Engine;
use enc_edge::{Gate, Studio};
use enc_tables::PlanStep;
use picture_planes::Picture;

/// Codes the pictures of a group, the last one in display order first, up to the first one that is refused or can't be
/// written; answers with how many were coded. Those of B pictures are then in their slots as a decoder shows them, and
/// the one that was coded first is the newest reference.
pub(crate) fn code_steps<R, S: Studio, G: Gate + Sync>(
    engine: &mut Engine,
    rt: &R,
    steps: &[PlanStep],
    slots: &mut [Picture],
    studio: &mut S,
    gate: &G,
) -> (usize, Result<(), GroupEnd>)
    requires keeps { Keeps engine.old }
    requires some { 1 ≤ length steps.now }
    requires most { length steps.now ≤ full_at (settings_in engine.old) (place_in engine.old) }
    requires steps { steps.now ≡ group (place_in engine.old).display (length steps.now) (settings_in engine.old).idr (place_in engine.old).number }
    requires few { (place_in engine.old).display + length steps.now ≤ 1000000 }
    requires slots { length steps.now ≤ length slots.old }
    requires sizes { AllByRecursion (HasSizes engine.old.head.width engine.old.head.height) slots.old }
    ensures left { StepsLeft (settings_in engine.old) (state_in engine.old) (group_steps (settings_in engine.old) (place_in engine.old) (take (length steps.now) (map planes_of slots.old))) (S.seen studio.old) (S.seen studio.new) (state_in engine.new) (map planes_of slots.new) (newest_planes engine.new.store) result.0 result.1 }
    ensures within { result.0 ≤ length steps.now }
    ensures holds { IfOk result.1 (λ _. Holds engine.new) }
    ensures gone { IfOk result.1 (λ _. GoneOn engine.old engine.new (length steps.now)) }
    ensures held { 1 ≤ result.0 → 1 ≤ length (held_of engine.new.store) }
    ensures width { width_of engine.new.store ≡ width_of engine.old.store }
    ensures height { height_of engine.new.store ≡ height_of engine.old.store }
    ensures same { SameEngine engine.old engine.new }
    ensures slots { length slots.new ≡ length slots.old }
    ensures sizes { AllByRecursion (HasSizes engine.old.head.width engine.old.head.height) slots.new }
{
    let last = steps.len() - 1;
    match engine.code_picture(rt, steps[0], &mut slots[last], studio, gate) {
        Ok(()) => {}
        Err(end) => return (0, Err(end)),
    }
    let (count, end) = code_between(engine, rt, &steps[1..], slots, studio, gate);
    (count + 1, end)
}

impl Engine {
    /// The next group begins behind these steps.
    pub(crate) fn pass(&mut self, steps: &[PlanStep])
        requires some { 1 ≤ length steps.now }
        requires few { self.old.display + length steps.now ≤ 1000000 }
        ensures { Passed steps.now self.old self.new }
    {
        self.display += steps.len() as u32;
        self.number = u32::from(steps[0].frame_num) + 1;
    }
}
