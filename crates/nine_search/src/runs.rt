// Runs of up to sixteen vectors that follow each other in the scan, with the sums of the sub-macroblocks where they lead.
ghost use Rattle.std.specs.Prelude.{◌≡◌, ◌≤◌, ◌<◌, ◌+◌, ◌-◌, ◌*◌, ◌/◌, ℕ, length, slice_index, false, true};
ghost use Rattle.spec_search.specs.Scan.{spot_at};
ghost use Rattle.spec_inter_plans.specs.InterPlans.{at};
ghost use Rattle.motion_search.specs.Planes.{IsBlockIn, IsNear};
ghost use Rattle.nine_search.specs.Runs.{spot_of, HoldsSums, Follows, AreLanes};

use block_sums::SumTable;
use spec_search::Spot;
use std::simd::prelude::*;

/// Up to sixteen vectors that follow each other in the scan: along a row, or left and right in turn.
#[derive(Clone, Copy, Drop)]
pub struct Run {
    /// The first of them.
    pub spot: Spot,
    /// How many there are.
    pub count: usize,
    /// Whether they are left and right in turn.
    pub is_sided: bool,
    /// The sums of the first sub-macroblock.
    pub first: u16x16,
    /// Of the one to its right.
    pub right: u16x16,
    /// Of the one below it.
    pub below: u16x16,
    /// Of the last.
    pub last: u16x16,
}

impl Run {
    /// The vector at a lane.
    #[inline(always)]
    pub fn spot_at(&self, lane: usize) -> Spot
        requires near { IsNear self.now.spot }
        requires lane { lane < 16 }
        ensures { result ≡ spot_of self.now lane }
    {
        if self.is_sided {
            Spot {
                ring: self.spot.ring,
                column: 2 * self.spot.ring * (lane % 2),
                row: self.spot.row + lane / 2,
            }
        } else {
            Spot {
                ring: self.spot.ring,
                column: self.spot.column + lane,
                row: self.spot.row,
            }
        }
    }
}

// Sixteen sums that stand beside each other.
#[inline(always)]
fn loaded(row: &[u16]) -> u16x16
    requires { 16 ≤ length row.now }
    ensures lanes { length result ≡ 16 }
    ensures value { (i : ℕ) → i < 16 → slice_index result i ≡ slice_index row.now i }
{
    u16x16::from_slice(row)
}

// The vectors of a row from one on.
#[inline(always)]
fn row_run(sums: &SumTable, x: u32, y: u32, spot: Spot, count: usize) -> Run
    requires margin { sums.now.pad ≡ 40 }
    requires inside { IsBlockIn sums.now.width sums.now.height (at x y 16 16) }
    requires near { IsNear spot }
    requires count { (count ≤ 16) × (spot.column + count ≤ 2 * spot.ring + 1) }
    ensures sums { HoldsSums sums.now x y result }
    ensures spot { (result.spot ≡ spot) × (result.count ≡ count) × (result.is_sided ≡ false) }
    ensures lanes { AreLanes result }
{
    let column = (x + sums.pad) as usize + spot.column - spot.ring;
    let row = (y + sums.pad) as usize + spot.row - spot.ring;
    let first = loaded(sums.sums_from(column, row));
    let right = loaded(sums.sums_from(column + 8, row));
    let below = loaded(sums.sums_from(column, row + 8));
    let last = loaded(sums.sums_from(column + 8, row + 8));
    Run {
        spot,
        count,
        is_sided: false,
        first,
        right,
        below,
        last,
    }
}

// The vectors at both sides from one on.
#[inline(always)]
fn side_run(sums: &SumTable, x: u32, y: u32, spot: Spot, count: usize) -> Run
    requires margin { sums.now.pad ≡ 40 }
    requires inside { IsBlockIn sums.now.width sums.now.height (at x y 16 16) }
    requires near { IsNear spot }
    requires count { (count ≤ 16) × (count ≤ 2 * (2 * spot.ring - spot.row)) }
    ensures sums { HoldsSums sums.now x y result }
    ensures spot { (result.spot ≡ spot) × (result.count ≡ count) × (result.is_sided ≡ true) }
    ensures lanes { AreLanes result }
{
    let left = (x + sums.pad) as usize - spot.ring;
    let top = (y + sums.pad) as usize + spot.row - spot.ring;
    let mut first = [0u16; 16];
    let mut right = [0u16; 16];
    let mut below = [0u16; 16];
    let mut last = [0u16; 16];
    for lane in 0..count {
        let column = left + 2 * spot.ring * (lane % 2);
        let row = top + lane / 2;
        first[lane] = sums.sum_from(column, row) as u16;
        right[lane] = sums.sum_from(column + 8, row) as u16;
        below[lane] = sums.sum_from(column, row + 8) as u16;
        last[lane] = sums.sum_from(column + 8, row + 8) as u16;
    }
    Run {
        spot,
        count,
        is_sided: true,
        first: u16x16::from_array(first),
        right: u16x16::from_array(right),
        below: u16x16::from_array(below),
        last: u16x16::from_array(last),
    }
}

/// The longest run from a vector on, of at most `most` vectors.
#[inline(always)]
pub fn run_from(sums: &SumTable, x: u32, y: u32, place: u32, spot: Spot, most: usize) -> Run
    requires margin { sums.now.pad ≡ 40 }
    requires inside { IsBlockIn sums.now.width sums.now.height (at x y 16 16) }
    requires near { IsNear spot }
    requires most { (0 < most) × (most ≤ 16) }
    requires stands { spot ≡ spot_at place }
    ensures sums { HoldsSums sums.now x y result }
    ensures follows { Follows place result }
    ensures count { (0 < result.count) × (result.count ≤ most) }
    ensures lanes { AreLanes result }
    ensures near { IsNear result.spot }
{
    let last = 2 * spot.ring;
    if spot.row == 0 || spot.row >= last {
        row_run(sums, x, y, spot, most.min(last + 1 - spot.column))
    } else if spot.column == 0 {
        side_run(sums, x, y, spot, most.min(2 * (last - spot.row)))
    } else {
        row_run(sums, x, y, spot, 1)
    }
}
