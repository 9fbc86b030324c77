// The taps of the half-sample filter along a row.
ghost use Rattle.std.specs.Prelude.{◌≡◌, ◌≤◌, ◌+◌, ◌*◌, ℕ, length, slice_index_or, pos};
ghost use Rattle.spec_kernels.specs.Sums.{tap_of, TapsOf};

use std::simd::prelude::*;

#[inline(always)]
fn tap(a: u8, b: u8, c: u8, d: u8, e: u8, f: u8) -> i16
    ensures { result ≡ tap_of a b c d e f }
{
    let up = a as u16 + 20 * (c as u16 + d as u16) + f as u16;
    let down = 5 * (b as u16 + e as u16);
    up as i16 - down as i16
}

// The taps at the first sixteen places.
#[inline(always)]
fn put_taps16(a: &[u8], out: &mut [i16])
    requires room_a { 21 ≤ length a.now }
    requires room_out { 16 ≤ length out.old }
    ensures taps { TapsOf a.now out.new 16 }
    ensures others { (k : ℕ) → 16 ≤ k → slice_index_or out.new k (pos 0) ≡ slice_index_or out.old k (pos 0) }
{
    let ends = u8x16::from_slice(a).cast::<i16>() + u8x16::from_slice(&a[5..]).cast::<i16>();
    let mids = u8x16::from_slice(&a[1..]).cast::<i16>() + u8x16::from_slice(&a[4..]).cast::<i16>();
    let ins = u8x16::from_slice(&a[2..]).cast::<i16>() + u8x16::from_slice(&a[3..]).cast::<i16>();
    (ends + i16x16::splat(20) * ins - i16x16::splat(5) * mids).copy_to_slice(out);
}

/// The taps 1, -5, 20, 20, -5, 1 over the six items of `a` from each place on; `a` has five more items than `out`.
#[inline(always)]
pub fn six_tap(a: &[u8], out: &mut [i16])
    requires { length a.now ≡ length out.old + 5 }
    ensures { TapsOf a.now out.new (length out.old) }
{
    let whole = out.len() / 16;
    for k in 0..whole {
        let i = 16 * k;
        put_taps16(&a[i..], &mut out[i..]);
    }
    for i in 16 * whole..out.len() {
        out[i] = tap(a[i], a[i + 1], a[i + 2], a[i + 3], a[i + 4], a[i + 5]);
    }
}
