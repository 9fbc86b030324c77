// Sums over rows, sixteen samples at a time and then one at a time.
ghost use Rattle.std.specs.Prelude.{◌≡◌, ◌≤◌, ◌+◌, ◌*◌, length, sum};
ghost use Rattle.spec_basics.specs.Sums.{sad};

use std::simd::prelude::*;

#[inline(always)]
fn sad16(x: &[u8; 16], y: &[u8; 16]) -> u32
    ensures { result ≡ sad x.now y.now }
{
    (u8x16::from_array(*x).cast::<i32>() - u8x16::from_array(*y).cast::<i32>())
        .abs()
        .reduce_sum()
        .unsigned_abs()
}

#[inline(always)]
fn sum16(x: u8x16) -> u32
    ensures { result ≡ sum x }
{
    x.dot4(u8x16::splat(1)).reduce_sum()
}

/// The sum of absolute differences of two rows, which have one length of at most 65,536.
#[inline(always)]
pub fn sad_rows(a: &[u8], b: &[u8]) -> u32
    requires same { length a.now ≡ length b.now }
    requires short { length a.now ≤ 65536 }
    ensures { result ≡ sad a.now b.now }
{
    let (blocks_a, _) = a.as_chunks::<16>();
    let (blocks_b, _) = b.as_chunks::<16>();
    let mut total = 0u32;
    for k in 0..blocks_a.len() {
        total += sad16(&blocks_a[k], &blocks_b[k]);
    }
    for i in 16 * blocks_a.len()..a.len() {
        total += a[i].abs_diff(b[i]) as u32;
    }
    total
}

/// The sum of a row of at most 65,536 samples.
#[inline(always)]
pub fn sum_rows(a: &[u8]) -> u32
    requires { length a.now ≤ 65536 }
    ensures { result ≡ sum a.now }
{
    let (blocks, _) = a.as_chunks::<16>();
    let mut total = 0u32;
    for k in 0..blocks.len() {
        total += sum16(u8x16::from_array(blocks[k]));
    }
    for i in 16 * blocks.len()..a.len() {
        total += a[i] as u32;
    }
    total
}
