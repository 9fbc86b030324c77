// Differences of blocks, a row at a time, with one accumulator for each column.
ghost use Rattle.std.specs.Prelude.{◌≡◌, ◌≤◌, ◌+◌, ◌-◌, ◌*◌, ℕ, length, take};
ghost use Rattle.spec_basics.specs.Sums.{sad};
ghost use Rattle.spec_kernels.specs.Sums.{block_difference, strided};
ghost use Rattle.lane_kernels.specs.Lanes.{lane_sum, AllAtMost};

use std::simd::prelude::*;

// Adds the differences of one row's columns to those of the rows before.
#[inline(always)]
fn add_apart16(all: u32x16, x: &[u8], y: &[u8]) -> u32x16
    requires lanes { length all ≡ 16 }
    requires low { AllAtMost 65280 all }
    requires x { 16 ≤ length x.now }
    requires y { 16 ≤ length y.now }
    ensures lanes { length result ≡ 16 }
    ensures sum { lane_sum result ≡ lane_sum all + sad (take 16 x.now) (take 16 y.now) }
    ensures most { (b : ℕ) → b ≤ 65280 → AllAtMost b all → AllAtMost (b + 255) result }
{
    all + (u8x16::from_slice(x).cast::<i32>() - u8x16::from_slice(y).cast::<i32>())
        .abs()
        .cast::<u32>()
}

// The same for rows of eight.
#[inline(always)]
fn add_apart8(all: u32x8, x: &[u8], y: &[u8]) -> u32x8
    requires lanes { length all ≡ 8 }
    requires low { AllAtMost 65280 all }
    requires x { 8 ≤ length x.now }
    requires y { 8 ≤ length y.now }
    ensures lanes { length result ≡ 8 }
    ensures sum { lane_sum result ≡ lane_sum all + sad (take 8 x.now) (take 8 y.now) }
    ensures most { (b : ℕ) → b ≤ 65280 → AllAtMost b all → AllAtMost (b + 255) result }
{
    all + (u8x8::from_slice(x).cast::<i32>() - u8x8::from_slice(y).cast::<i32>())
        .abs()
        .cast::<u32>()
}

#[inline(always)]
fn total16(all: u32x16) -> u32
    requires lanes { length all ≡ 16 }
    requires low { AllAtMost 65280 all }
    ensures { result ≡ lane_sum all }
{
    all.reduce_sum()
}

#[inline(always)]
fn total8(all: u32x8) -> u32
    requires lanes { length all ≡ 8 }
    requires low { AllAtMost 65280 all }
    ensures { result ≡ lane_sum all }
{
    all.reduce_sum()
}

/// The sum of absolute differences of two blocks of 16 columns and `rows` rows, of which there are at most 16. Each
/// block begins at the front of its list, and each row begins `stride` items after the one before.
#[inline(always)]
pub fn sad_block16(a: &[u8], stride_a: usize, b: &[u8], stride_b: usize, rows: usize) -> u32
    requires rows { (1 ≤ rows) × (rows ≤ 16) }
    requires strides { (stride_a ≤ 65536) × (stride_b ≤ 65536) }
    requires room_a { (rows - 1) * stride_a + 16 ≤ length a.now }
    requires room_b { (rows - 1) * stride_b + 16 ≤ length b.now }
    ensures { result ≡ block_difference (strided a.now stride_a) (strided b.now stride_b) 16 rows }
{
    let mut all = u32x16::splat(0);
    for row in 0..rows {
        let i = row * stride_a;
        let j = row * stride_b;
        all = add_apart16(all, &a[i..], &b[j..]);
    }
    total16(all)
}

/// The same for blocks of 8 columns.
#[inline(always)]
pub fn sad_block8(a: &[u8], stride_a: usize, b: &[u8], stride_b: usize, rows: usize) -> u32
    requires rows { (1 ≤ rows) × (rows ≤ 16) }
    requires strides { (stride_a ≤ 65536) × (stride_b ≤ 65536) }
    requires room_a { (rows - 1) * stride_a + 8 ≤ length a.now }
    requires room_b { (rows - 1) * stride_b + 8 ≤ length b.now }
    ensures { result ≡ block_difference (strided a.now stride_a) (strided b.now stride_b) 8 rows }
{
    let mut all = u32x8::splat(0);
    for row in 0..rows {
        let i = row * stride_a;
        let j = row * stride_b;
        all = add_apart8(all, &a[i..], &b[j..]);
    }
    total8(all)
}
