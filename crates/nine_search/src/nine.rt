// The search for motion of all nine partitions of a macroblock at once.
ghost use Rattle.std.specs.Prelude.{◌≡◌, ◌≤◌, ◌<◌, ◌+◌, ◌*◌, ℕ, pos, ◌-ℤ◌, length, slice_index};
ghost use Rattle.std.specs.List.{sum_by};
ghost use Rattle.block_sums.specs.Tables.{IsTableOf};
ghost use Rattle.picture_planes.specs.declared.plane.Plane.{Plane};
ghost use Rattle.picture_planes.specs.Samples.{at as samples_at};
ghost use Rattle.picture_planes.specs.Margins.{IsFilled};
ghost use Rattle.spec_kernels.specs.Sums.{block_difference, strided};
ghost use Rattle.spec_search.specs.Scan.{dx_of, dy_of, window_size};
ghost use Rattle.spec_search.specs.Window.{IsWindowBest, compared_in};
ghost use Rattle.spec_inter_plans.specs.InterPlans.{at, partitions};
ghost use Rattle.motion_search.specs.Planes.{costs, bounds, Searchable, IsBlockOf, IsBlockIn, SameSize, IsNear, OwnSums, AreSmall};
ghost use Rattle.nine_search.specs.Partitions.{partition_block, sub_macroblock};
ghost use Rattle.nine_search.specs.NineSearches.{NineSearched, dx_at, dy_at, sad_at};
ghost use Rattle.nine_search.specs.NinePlanes.{sub_costs, sub_bounds};
ghost use Rattle.nine_search.specs.Runs.{IsRun, AreLanes};

use crate::lanes::wants_of;
use crate::partitions::{Nine, nine_sums, taken, want_count};
use crate::runs::{Run, run_from};
use block_sums::SumTable;
use lane_kernels::sad_block8;
use motion_search::{Steps, after, own_sums};
use picture_planes::Plane;
use spec_search::{Block, Spot};
use std::sync::ledger::Ledger;

// The difference of two blocks of 8x8 samples.
#[inline(always)]
fn difference8(own: &[u8], stride_own: usize, moved: &[u8], stride_moved: usize) -> u32
    requires strides { (stride_own ≤ 65536) × (stride_moved ≤ 65536) }
    requires room_own { 7 * stride_own + 8 ≤ length own.now }
    requires room_moved { 7 * stride_moved + 8 ≤ length moved.now }
    ensures value { result ≡ block_difference (strided own.now stride_own) (strided moved.now stride_moved) 8 8 }
    ensures small { result < 65536 }
{
    sad_block8(own, stride_own, moved, stride_moved, 8)
}

// The difference of the sub-macroblock at (x, y) and the samples of the reference that lie the vector away.
#[inline(always)]
fn sub_difference(source: &Plane, reference: &Plane, x: u32, y: u32, spot: Spot) -> u32
    requires planes { Searchable source.now reference.now (at x y 8 8) }
    requires near { IsNear spot }
    ensures value { result ≡ costs source.now reference.now (at x y 8 8) (dx_of spot) (dy_of spot) }
    ensures small { result < 65536 }
{
    let own = source.rows_from((x + source.pad) as usize, (y + source.pad) as usize);
    let moved = reference.rows_from(
        (x + reference.pad) as usize + spot.column - spot.ring,
        (y + reference.pad) as usize + spot.row - spot.ring,
    );
    let stride_own = (source.width + 2 * source.pad) as usize;
    let stride_moved = (reference.width + 2 * reference.pad) as usize;
    difference8(own, stride_own, moved, stride_moved)
}

// The differences of the four sub-macroblocks of the macroblock at (x, y).
#[inline(always)]
fn four_differences(source: &Plane, reference: &Plane, x: u32, y: u32, spot: Spot) -> [u32; 4]
    requires planes { Searchable source.now reference.now (at x y 16 16) }
    requires near { IsNear spot }
    ensures value { (q : ℕ) → q < 4 → slice_index result q ≡ costs source.now reference.now (sub_macroblock x y q) (dx_of spot) (dy_of spot) }
    ensures small { AreSmall result }
{
    let first = sub_difference(source, reference, x, y, spot);
    let right = sub_difference(source, reference, x + 8, y, spot);
    let below = sub_difference(source, reference, x, y + 8, spot);
    let last = sub_difference(source, reference, x + 8, y + 8, spot);
    [first, right, below, last]
}

// The vector as it is kept, by its two parts.
#[inline(always)]
fn part_of(place: usize, ring: usize) -> i16
    requires { (ring ≤ 32) × (place ≤ 2 * ring) }
    ensures { result ≡ pos place -ℤ pos ring }
{
    place as i16 - ring as i16
}

// What is known after the first vector, which every partition compares.
#[inline(always)]
fn nine_begun<L: Ledger>(
    source: &Plane,
    reference: &Plane,
    x: u32,
    y: u32,
    steps: &mut Steps<L>,
) -> Nine
    requires planes { Searchable source.now reference.now (at x y 16 16) }
    ensures known { NineSearched (sub_costs source.now reference.now x y) (sub_bounds source.now reference.now x y) 1 result }
    ensures few { result.compared ≡ 9 }
    ensures counted { steps.new ≡ steps.old + 9 }
{
    let spot = Spot {
        ring: 0,
        column: 0,
        row: 0,
    };
    steps.rise(9);
    let parts = four_differences(source, reference, x, y, spot);
    let sads = nine_sums(&parts);
    Nine {
        dx: [0; 9],
        dy: [0; 9],
        sads,
        compared: 9,
    }
}

// The search goes on over a run: the differences are taken where some partition's bound is below its least cost so far, and
// each such partition is counted.
fn run_tried<L: Ledger>(
    source: &Plane,
    reference: &Plane,
    own: &[u32; 4],
    x: u32,
    y: u32,
    range: u32,
    place: u32,
    run: &Run,
    old: Nine,
    steps: &mut Steps<L>,
) -> Nine
    requires planes { Searchable source.now reference.now (at x y 16 16) }
    requires own { AreSmall own.now }
    requires small { (q n : ℕ) → q < 4 → sub_bounds source.now reference.now x y q n ≤ 16383 }
    requires range { range ≤ 32 }
    requires count { (0 < run.now.count) × (run.now.count ≤ 16) }
    requires lanes { AreLanes run.now }
    requires near { IsNear run.now.spot }
    requires place { (0 < place) × (place + run.now.count ≤ window_size range) }
    requires run { IsRun own.now (sub_bounds source.now reference.now x y) place run.now }
    requires few { old.compared < 100000 }
    requires known { NineSearched (sub_costs source.now reference.now x y) (sub_bounds source.now reference.now x y) place old }
    ensures known { NineSearched (sub_costs source.now reference.now x y) (sub_bounds source.now reference.now x y) (place + run.now.count) result }
    ensures few { result.compared ≤ old.compared + 9 * run.now.count }
    ensures counted { steps.new + old.compared ≡ steps.old + result.compared }
{
    let mut nine = old;
    let mut counts = wants_of(own, run, &nine.sads);
    for lane in 0..run.count {
        let wanted = counts[lane] as u32;
        if wanted > 0 {
            steps.rise(wanted);
            let spot = run.spot_at(lane);
            let parts = four_differences(source, reference, x, y, spot);
            let sads = nine_sums(&parts);
            if want_count(&sads, &nine.sads) > 0 {
                let dx = part_of(spot.column, spot.ring);
                let dy = part_of(spot.row, spot.ring);
                nine = taken(nine, dx, dy, &sads, nine.compared + wanted);
                counts = wants_of(own, run, &nine.sads);
            } else {
                nine.compared += wanted;
            }
        }
    }
    nine
}

// No byte is above 255.
fn lemma_bytes(bytes: &[u8])
    ensures { (n : ℕ) → slice_index bytes.now n ≤ 255 }
{}

// So no sample is.
fn lemma_samples(plane: &Plane)
    ensures { (x y : ℕ) → x < plane.now.width → y < plane.now.height → samples_at plane.now x y ≤ 255 }
{
    lemma_bytes(plane.rows_from(0, 0));
}

// And no bound of a sub-macroblock is above 64 times 255.
fn lemma_bounds_small(source: &Plane, reference: &Plane, x: u32, y: u32)
    requires macroblock { IsBlockOf source.now (at x y 16 16) }
    ensures { (q n : ℕ) → q < 4 → sub_bounds source.now reference.now x y q n ≤ 16383 }
{
    lemma_samples(source);
    lemma_samples(reference);
}

/// The best vectors of the windows of all nine partitions of the macroblock at column `x` and row `y`: of each partition what
/// `search` finds. A partition compares a vector where it is the first or the partition's bound is below the partition's
/// least cost before; `compared` says how often that was, all partitions together, and `steps` rises by as much. The
/// differences of the four sub-macroblocks are taken once for all partitions.
///
/// The reference's margin is 40 and filled, source and reference have one size, the tables are filled from the planes,
/// the macroblock lies inside, and the range is from 1 to 32.
pub fn search_nine<L: Ledger>(
    source: &Plane,
    reference: &Plane,
    source_sums: &SumTable,
    sums: &SumTable,
    x: u32,
    y: u32,
    range: u32,
    steps: &mut Steps<L>,
) -> Nine
    requires margin { reference.now.pad ≡ 40 }
    requires filled { IsFilled reference.now }
    requires sizes { SameSize source.now reference.now }
    requires source_table { IsTableOf source_sums.now source.now }
    requires table { IsTableOf sums.now reference.now }
    requires macroblock { IsBlockOf source.now (at x y 16 16) }
    requires range { (1 ≤ range) × (range ≤ 32) }
    ensures best { (k : ℕ) → k < 9 → IsWindowBest (costs source.now reference.now (partition_block x y k)) range (dx_at result k) (dy_at result k) (sad_at result k) }
    ensures compared { result.compared ≡ sum_by (λ block. compared_in (costs source.now reference.now block) (bounds source.now reference.now block) range) (partitions x y) }
    ensures counted { steps.new ≡ steps.old + result.compared }
{
    let own = own_sums(source_sums, Block { x, y, w: 16, h: 16 });
    lemma_bounds_small(source, reference, x, y);
    let mut spot = Spot {
        ring: 0,
        column: 0,
        row: 0,
    };
    let mut nine = nine_begun(source, reference, x, y, steps);
    let places = (2 * range + 1) * (2 * range + 1);
    let mut place = 1;
    while place < places {
        spot = after(spot);
        let most = (places - place).min(16) as usize;
        let run = run_from(sums, x, y, place, spot, most);
        nine = run_tried(
            source, reference, &own, x, y, range, place, &run, nine, steps,
        );
        spot = run.spot_at(run.count - 1);
        place += run.count as u32;
    }
    nine
}
