// How many partitions want each vector of a run, by lanes of 16 bits.
ghost use Rattle.std.specs.Prelude.{◌≡◌, ◌≤◌, ◌<◌, ◌+◌, ℕ, min, length, slice_index};
ghost use Rattle.std.specs.Int.{abs_diff};
ghost use Rattle.motion_search.specs.Planes.{AreSmall};
ghost use Rattle.nine_search.specs.NineSearches.{nine_want};
ghost use Rattle.nine_search.specs.Runs.{apart_of, AreLanes, HoldsAt, is_below};

use crate::runs::Run;
use std::simd::prelude::*;

// How far each lane is from a sum.
#[inline(always)]
fn apart(own: u16, sums: u16x16) -> u16x16
    requires { length sums ≡ 16 }
    ensures { (i : ℕ) → i < 16 → HoldsAt i (abs_diff own (slice_index sums i)) result }
{
    let all = u16x16::splat(own);
    sums.simd_lt(all).select(all - sums, sums - all)
}

// Sums lane by lane.
#[inline(always)]
fn both(a: u16x16, b: u16x16) -> u16x16
    ensures { (i u v : ℕ) → i < 16 → HoldsAt i u a → HoldsAt i v b → u + v < 65536 → HoldsAt i (u + v) result }
{
    a + b
}

// One more at each lane whose sum is below the limit.
#[inline(always)]
fn more_wants(counts: u16x16, sums: u16x16, limit: u16) -> u16x16
    ensures { (i n v : ℕ) → i < 16 → HoldsAt i n counts → HoldsAt i v sums → n ≤ 9 → HoldsAt i (n + is_below v limit) result }
{
    counts
        + sums
            .simd_lt(u16x16::splat(limit))
            .select(u16x16::splat(1), u16x16::splat(0))
}

// A limit as lanes hold it: no sum of four bounds is above 65532.
#[inline(always)]
fn limit_of(sad: u32) -> u16
    ensures { result ≡ min sad 65535 }
{
    sad.min(65535) as u16
}

// How many partitions want each lane.
#[inline(always)]
fn lane_wants(own: &[u32; 4], run: &Run, limits: &[u32; 9]) -> u16x16
    requires own { AreSmall own.now }
    requires lanes { AreLanes run.now }
    ensures { (i : ℕ) → i < 16 → ((q : ℕ) → q < 4 → apart_of own.now run.now q i ≤ 16383) → HoldsAt i (nine_want (apart_of own.now run.now) (slice_index limits.now) i) result }
{
    let a = apart(own[0] as u16, run.first);
    let b = apart(own[1] as u16, run.right);
    let c = apart(own[2] as u16, run.below);
    let d = apart(own[3] as u16, run.last);
    let upper = both(a, b);
    let lower = both(c, d);
    let left = both(a, c);
    let right = both(b, d);
    let all = both(upper, lower);
    let counts0 = more_wants(u16x16::splat(0), all, limit_of(limits[0]));
    let counts1 = more_wants(counts0, upper, limit_of(limits[1]));
    let counts2 = more_wants(counts1, lower, limit_of(limits[2]));
    let counts3 = more_wants(counts2, left, limit_of(limits[3]));
    let counts4 = more_wants(counts3, right, limit_of(limits[4]));
    let counts5 = more_wants(counts4, a, limit_of(limits[5]));
    let counts6 = more_wants(counts5, b, limit_of(limits[6]));
    let counts7 = more_wants(counts6, c, limit_of(limits[7]));
    more_wants(counts7, d, limit_of(limits[8]))
}

/// How many partitions have a bound below their limit, at each lane of a run.
#[inline(always)]
pub fn wants_of(own: &[u32; 4], run: &Run, limits: &[u32; 9]) -> [u16; 16]
    requires own { AreSmall own.now }
    requires lanes { AreLanes run.now }
    ensures lanes { length result ≡ 16 }
    ensures value { (i : ℕ) → i < 16 → ((q : ℕ) → q < 4 → apart_of own.now run.now q i ≤ 16383) → slice_index result i ≡ nine_want (apart_of own.now run.now) (slice_index limits.now) i }
{
    lane_wants(own, run, limits).to_array()
}
