// The nine partitions of a macroblock, and what a search of all of them has found.
ghost use Rattle.std.specs.Prelude.{◌≡◌, ◌≤◌, ◌<◌, ◌+◌, ◌*◌, ℕ, slice_index, slice_index_or};
ghost use Rattle.spec_inter_plans.specs.InterPlans.{partitions};
ghost use Rattle.motion_search.specs.Planes.{AreSmall};
ghost use Rattle.nine_search.specs.Partitions.{of_partition};
ghost use Rattle.nine_search.specs.NineSearches.{below_count, Takes};

use spec_search::Block;

/// What a search of the nine partitions of a macroblock has found: 16x16; 16x8 upper and lower; 8x16 left and right; the
/// four 8x8.
#[derive(Clone, Copy, Debug, PartialEq, Eq, Drop)]
pub struct Nine {
    /// The best vector of each partition: samples to the right.
    pub dx: [i16; 9],
    /// Samples downwards.
    pub dy: [i16; 9],
    /// The sum of absolute differences there.
    pub sads: [u32; 9],
    /// How many vectors were compared, all partitions together.
    pub compared: u32,
}

/// The nine partitions of the macroblock at column `x` and row `y`, which are at most 65536.
#[tactic(auto, unfolding(spec_inter_plans::specs::InterPlans::partitions))]
pub fn nine_blocks(x: u32, y: u32) -> [Block; 9]
    requires across { x ≤ 65536 }
    requires down { y ≤ 65536 }
    ensures { result ≡ partitions x y }
{
    [
        Block { x, y, w: 16, h: 16 },
        Block { x, y, w: 16, h: 8 },
        Block {
            x,
            y: y + 8,
            w: 16,
            h: 8,
        },
        Block { x, y, w: 8, h: 16 },
        Block {
            x: x + 8,
            y,
            w: 8,
            h: 16,
        },
        Block { x, y, w: 8, h: 8 },
        Block {
            x: x + 8,
            y,
            w: 8,
            h: 8,
        },
        Block {
            x,
            y: y + 8,
            w: 8,
            h: 8,
        },
        Block {
            x: x + 8,
            y: y + 8,
            w: 8,
            h: 8,
        },
    ]
}

// The sums over the nine partitions of what is known of the four sub-macroblocks.
#[inline(always)]
pub fn nine_sums(parts: &[u32; 4]) -> [u32; 9]
    requires { AreSmall parts.now }
    ensures { (k : ℕ) → k < 9 → slice_index result k ≡ of_partition (slice_index parts.now) k }
{
    let a = parts[0];
    let b = parts[1];
    let c = parts[2];
    let d = parts[3];
    [a + b + c + d, a + b, c + d, a + c, b + d, a, b, c, d]
}

// How many sums are below their limits.
#[inline(always)]
pub fn want_count(sums: &[u32; 9], limits: &[u32; 9]) -> u32
    ensures value { result ≡ below_count sums.now limits.now 9 }
    ensures few { result ≤ 9 }
{
    let mut count = 0;
    for k in 0..9 {
        if sums[k] < limits[k] {
            count += 1;
        }
    }
    count
}

// Each partition takes the vector where its cost is below the least so far.
#[inline(always)]
pub fn taken(nine: Nine, dx: i16, dy: i16, costs: &[u32; 9], compared: u32) -> Nine
    ensures each { (k : ℕ) → k < 9 → Takes dx dy (slice_index costs.now k) k nine result }
    ensures compared { result.compared ≡ compared }
{
    let mut right = nine.dx;
    let mut down = nine.dy;
    let mut sads = nine.sads;
    for k in 0..9 {
        if costs[k] < sads[k] {
            right[k] = dx;
            down[k] = dy;
            sads[k] = costs[k];
        }
    }
    Nine {
        dx: right,
        dy: down,
        sads,
        compared,
    }
}
