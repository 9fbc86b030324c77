//! The order in which pictures are coded: IDR pictures at fixed distances, and between them groups of B pictures that a
//! P picture, coded before them, ends.
#![tactic(auto)]

ghost use Rattle.std.specs.Prelude.{◌≡◌, ◌<◌, ◌≤◌, ◌+◌, ◌-◌, ◌*◌, ◌%◌, ◌==◌, ◌++◌, ℕ, min, true, false, [], ◌∷◌, if◌then◌else◌};
ghost use Rattle.spec_plan.specs.Plan.{fixed, group_size, group as group_of, idr_step, p_step, b_step, b_steps};
ghost use Rattle.spec_plan.specs.Delays.{removal_ticks, output_ticks};

use arrayvec::ArrayVec;
use enc_tables::{PlanStep, SliceKind};

/// How many pictures the next group has, where it begins at this place in display order: one, where it is an IDR
/// picture; else `bframes` B pictures and a P picture, or as many as there are before the next IDR picture. `idr` is
/// from 1 to 600 and `bframes` at most 4. A film that ends before has the rest of its pictures in its last group.
pub fn wanted(display: u32, idr: u32, bframes: u32) -> u32
    requires place { display < 1000000 }
    requires period { (1 ≤ idr) × (idr ≤ 600) }
    requires between { bframes ≤ 4 }
    ensures size { (left : ℕ) → 1 ≤ left → group_size (fixed bframes) idr display left ≡ min result left }
    ensures some { (1 ≤ result) × (result ≤ 5) }
{
    if display % idr == 0 {
        return 1;
    }
    (bframes + 1).min(idr - display % idr)
}

fn idr_picture(display: u32) -> PlanStep
    ensures { result ≡ idr_step display }
{
    PlanStep {
        display,
        kind: SliceKind::I,
        idr: true,
        frame_num: 0,
        poc: 0,
    }
}

fn p_picture(display: u32, idr: u32, frame_num: u16) -> PlanStep
    requires period { (1 ≤ idr) × (idr ≤ 600) }
    ensures { result ≡ p_step idr display frame_num }
{
    PlanStep {
        display,
        kind: SliceKind::P,
        idr: false,
        frame_num,
        poc: (2 * (display % idr)) as u16,
    }
}

fn b_picture(display: u32, idr: u32, frame_num: u16) -> PlanStep
    requires period { (1 ≤ idr) × (idr ≤ 600) }
    requires number { frame_num ≤ 600 }
    ensures { result ≡ b_step idr display frame_num }
{
    PlanStep {
        display,
        kind: SliceKind::B,
        idr: false,
        frame_num: frame_num + 1,
        poc: (2 * (display % idr)) as u16,
    }
}

/// The steps of the group of `got` pictures from this place in display order on, in the order in which they are coded.
/// `frame_num` is that of its reference picture, where it isn't an IDR picture. An IDR picture is a group of its own,
/// and no other group has the place of one.
#[tactic(auto, unfolding(spec_plan::specs::Plan::group))]
pub fn group(display: u32, got: u32, idr: u32, frame_num: u16) -> ArrayVec<PlanStep, 5>
    requires place { display < 1000000 }
    requires period { (1 ≤ idr) × (idr ≤ 600) }
    requires some { (1 ≤ got) × (got ≤ 5) }
    requires number { frame_num ≤ 600 }
    requires alone { (display % idr == 0) ≡ true → got ≡ 1 }
    requires between { (display % idr == 0) ≡ false → display % idr + got ≤ idr }
    ensures { result.items ≡ group_of display got idr frame_num }
{
    let mut steps = ArrayVec::new();
    if display % idr == 0 {
        steps.push(idr_picture(display));
        return steps;
    }
    steps.push(p_picture(display + (got - 1), idr, frame_num));
    for place in display..display + (got - 1) {
        steps.push(b_picture(place, idr, frame_num));
    }
    steps
}

#[cfg(test)]
mod tests;

/// The delay from the removal of the unit with which the last buffering period began to that of a picture's unit, in
/// clock ticks, two a picture: `cpb_removal_delay` (clause D.2.3). `units` units come before the picture's and `first`
/// before the other.
pub fn removal_delay(units: u32, first: u32) -> u32
    requires order { first ≤ units }
    requires few { units ≤ 1000000 }
    ensures { result ≡ removal_ticks units first }
{
    2 * (units - first)
}

/// The delay from the removal of a picture's unit to its output, in clock ticks, two a picture: `dpb_output_delay`
/// (clause D.2.3). The picture stands at `display` in display order and at `coded` in coded order, both from 0; where
/// pictures are coded out of display order, each is shown one picture later, so that none is wanted before it is there.
pub fn output_delay(reorders: bool, display: u32, coded: u32) -> u32
    requires place { display < 1000000 }
    requires order { coded ≤ display + (if reorders then 1 else 0) }
    ensures { result ≡ output_ticks reorders display coded }
{
    let shown = if reorders { display + 1 } else { display };
    2 * (shown - coded)
}
