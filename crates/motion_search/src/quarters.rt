// The refinement of a vector to quarter samples.
ghost use Rattle.std.specs.Prelude.{◌≡◌, ◌≤◌, ◌<◌, ◌+◌, ◌*◌, ℕ, pos, negsuc, ◌≤ℤ◌, ◌+ℤ◌, ◌-ℤ◌, ◌⊎◌, IfSome};
ghost use Rattle.picture_planes.specs.Margins.{IsFilled};
ghost use Rattle.subpel_filter.specs.Predicted.{IsShort};
ghost use Rattle.spec_search.specs.Scan.{InRange};
ghost use Rattle.spec_search.specs.Refine.{square_place, turned, in_quarters, IsBestOfNine, IsRefined};
ghost use Rattle.motion_search.specs.Planes.{Searchable, IsBlockOf, SameSize};
ghost use Rattle.spec_inter.specs.Blocks.{RowsOf};
ghost use Rattle.subpel_filter.specs.Halves.{AreSized, AreHalves};
ghost use Rattle.motion_search.specs.Quarters.{quarter_costs, kept_costs, costs_by, samples_by, IsWithin};

use enc_tables::Vector;
use lane_kernels::{sad_block8, sad_block16};
use picture_planes::Plane;
use spec_search::{Best, Block};
use subpel_filter::{HalfPlanes, luma_block, luma_from};

// The samples that a vector leads to: filtered anew, or from half samples where some are given.
fn predicted_by(
    reference: &Plane,
    halves: Option<&HalfPlanes>,
    block: Block,
    v: Vector,
) -> [u8; 256]
    requires margin { reference.now.pad ≡ 40 }
    requires filled { IsFilled reference.now }
    requires block { IsBlockOf reference.now block }
    requires sizes { IfSome halves (λ kept. AreSized reference.now kept.now) }
    requires short { IsWithin 131 v }
    ensures { RowsOf (samples_by reference.now halves.entry block v) block.w block.h result }
{
    let mut predicted = [0u8; 256];
    let (x, y, w, h) = (block.x, block.y, block.w, block.h);
    match halves {
        None => luma_block(reference, x, y, v, w, h, &mut predicted),
        Some(kept) => luma_from(reference, kept, x, y, v, w, h, &mut predicted),
    }
    predicted
}

// The sum of absolute differences of the block and its prediction by a vector.
fn quarter_difference(
    source: &Plane,
    reference: &Plane,
    halves: Option<&HalfPlanes>,
    block: Block,
    v: Vector,
) -> u32
    requires planes { Searchable source.now reference.now block }
    requires sizes { IfSome halves (λ kept. AreSized reference.now kept.now) }
    requires short { IsWithin 131 v }
    ensures { result ≡ costs_by source.now reference.now halves.entry block v }
{
    let predicted = predicted_by(reference, halves, block, v);
    let own = source.rows_from(
        (block.x + source.pad) as usize,
        (block.y + source.pad) as usize,
    );
    let stride = (source.width + 2 * source.pad) as usize;
    if block.w == 16 {
        sad_block16(own, stride, &predicted, 16, block.h as usize)
    } else {
        sad_block8(own, stride, &predicted, 8, block.h as usize)
    }
}

// The place in the square that is tried at a turn.
fn place_at(turn: u32) -> u32
    requires { turn < 9 }
    ensures value { result ≡ square_place turn }
    ensures small { result < 9 }
{
    if turn == 0 {
        4
    } else if turn < 5 {
        turn - 1
    } else {
        turn
    }
}

// A part of the vector that is tried, where the place lies `away` steps from the square's first.
fn part_at(part: i16, step: u32, away: u32) -> i16
    requires step { (1 ≤ step) × (step ≤ 2) }
    requires away { away ≤ 2 }
    requires low { negsuc 129 ≤ℤ part }
    requires high { part ≤ℤ pos 130 }
    ensures { result ≡ part +ℤ pos (step * away) -ℤ pos step }
{
    part + (step * away) as i16 - step as i16
}

// The vector that is tried at a turn.
fn vector_at(centre: Vector, step: u32, turn: u32) -> Vector
    requires step { (1 ≤ step) × (step ≤ 2) }
    requires turn { turn < 9 }
    requires centre { IsWithin 130 centre }
    ensures { result ≡ turned centre step turn }
{
    let place = place_at(turn);
    Vector {
        x: part_at(centre.x, step, place % 3),
        y: part_at(centre.y, step, place / 3),
    }
}

// The first best of the nine vectors of a round, and its cost.
fn best_of_nine(
    source: &Plane,
    reference: &Plane,
    halves: Option<&HalfPlanes>,
    block: Block,
    centre: Vector,
    step: u32,
) -> (Vector, u32)
    requires planes { Searchable source.now reference.now block }
    requires sizes { IfSome halves (λ kept. AreSized reference.now kept.now) }
    requires step { (1 ≤ step) × (step ≤ 2) }
    requires centre { (m : ℕ) × (m + step ≤ 131) × IsWithin m centre }
    ensures best { IsBestOfNine (costs_by source.now reference.now halves.entry block) centre step result.0 }
    ensures cost { result.1 ≡ costs_by source.now reference.now halves.entry block result.0 }
{
    let mut best = vector_at(centre, step, 0);
    let mut least = quarter_difference(source, reference, halves, block, best);
    for turn in 1..9u32 {
        let v = vector_at(centre, step, turn);
        let sad = quarter_difference(source, reference, halves, block, v);
        if sad < least {
            best = v;
            least = sad;
        }
    }
    (best, least)
}

// Two rounds of nine about a whole-sample vector.
fn refined(
    source: &Plane,
    reference: &Plane,
    halves: Option<&HalfPlanes>,
    block: Block,
    best: &Best,
) -> (Vector, u32)
    requires planes { Searchable source.now reference.now block }
    requires sizes { IfSome halves (λ kept. AreSized reference.now kept.now) }
    requires best { InRange 32 best.now.dx best.now.dy }
    ensures { IsRefined (costs_by source.now reference.now halves.entry block) best.now.dx best.now.dy result.0 result.1 }
{
    let centre = Vector {
        x: 4 * best.dx,
        y: 4 * best.dy,
    };
    let (half, _) = best_of_nine(source, reference, halves, block, centre, 2);
    best_of_nine(source, reference, halves, block, half, 1)
}

/// Refines the best whole-sample vector of a block to quarter samples: of the vector and its eight neighbours at 2
/// quarter samples, itself first and then from above to below and from left to right, the first of least cost; and then
/// the same about that one at 1 quarter sample. The cost is the sum of absolute differences of the block and its
/// prediction. The answer is the vector and its cost.
///
/// The reference's margin is 40 and filled, source and reference have one size, the block lies inside with sides of 8 or
/// 16, and no part of the best vector is above 32 in size.
pub fn refine(source: &Plane, reference: &Plane, block: Block, best: &Best) -> (Vector, u32)
    requires margin { reference.now.pad ≡ 40 }
    requires filled { IsFilled reference.now }
    requires sizes { SameSize source.now reference.now }
    requires block { IsBlockOf source.now block }
    requires best { InRange 32 best.now.dx best.now.dy }
    ensures { IsRefined (quarter_costs source.now reference.now block) best.now.dx best.now.dy result.0 result.1 }
{
    refined(source, reference, None, block, best)
}

/// Refines like `refine`, over the blocks that `luma_from` gives, whatever the half planes hold. Where they are filled from
/// the reference by `fill_halves`, the answer is that of `refine`. They have the reference's size and margin.
pub fn refine_from(
    source: &Plane,
    reference: &Plane,
    halves: &HalfPlanes,
    block: Block,
    best: &Best,
) -> (Vector, u32)
    requires margin { reference.now.pad ≡ 40 }
    requires filled { IsFilled reference.now }
    requires sizes { SameSize source.now reference.now }
    requires halves { AreSized reference.now halves.now }
    requires block { IsBlockOf source.now block }
    requires best { InRange 32 best.now.dx best.now.dy }
    ensures kept { IsRefined (kept_costs source.now reference.now halves.now block) best.now.dx best.now.dy result.0 result.1 }
    ensures same { AreHalves reference.now halves.now → IsRefined (quarter_costs source.now reference.now block) best.now.dx best.now.dy result.0 result.1 }
{
    refined(source, reference, Some(halves), block, best)
}
