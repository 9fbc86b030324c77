// The register and the range of the arithmetic coder (ITU-T H.264, clause 9.3.4.2).
ghost use Rattle.std.specs.Prelude.{◌≡◌, ℕ, ◌+◌, ◌-◌, ◌*◌, ◌/◌, ◌^◌, ◌<◌, ◌≤◌, Bool, cond, length, min};
ghost use Rattle.spec_cabac.specs.Code.{renormalised};
ghost use Rattle.spec_cabac.proofs.Ranges.{IsBounded};
ghost use Rattle.cabac_coder.specs.Emitted.{Emitted};
ghost use Rattle.cabac_coder.specs.Whole.{whole, moved, bypassing, Grows, doublings_of};

use crate::pending::PendingBytes;

/// The end of the number that is in no byte yet, and the range.
#[derive(Clone, Copy)]
pub struct Interval {
    /// The register: nine digits of the number, a place for a carry before them, and the queued digits.
    pub low: u32,
    /// The range.
    pub range: u32,
    /// How many digits are queued; eight make a byte.
    pub queued: u32,
}

/// How many doublings make the range at least 256.
#[inline]
pub fn doublings(range: u32) -> u32
    requires least { 2 ≤ range }
    requires most { range < 512 }
    ensures count { result ≡ doublings_of 7 range }
    ensures few { result ≤ 7 }
{
    range.leading_zeros() - 23
}

/// Narrows the range to the part of that size which begins at `add`, and doubles it `more` times.
#[inline]
pub fn narrow(bytes: &mut PendingBytes, at: Interval, add: u32, range: u32, more: u32) -> Interval
    requires within { add + range ≤ at.range }
    requires register { at.low + at.range ≤ 1024 * 2 ^ at.queued }
    requires queued { at.queued < 8 }
    requires least { 2 ≤ range }
    requires most { at.range < 512 }
    requires more { more ≡ doublings_of 7 range }
    requires few { more ≤ 7 }
    requires bounded { IsBounded (whole bytes.old at.low at.range at.queued) }
    requires room { length bytes.old.start + bytes.old.count ≤ bytes.old.room }
    requires wide { bytes.old.count + 8 < 2 ^ 64 }
    ensures narrowed { whole bytes.new result.low result.range result.queued ≡ renormalised 7 (moved add range (whole bytes.old at.low at.range at.queued)) }
    ensures grows { Grows bytes.old bytes.new }
    ensures register { result.low + result.range ≤ 1024 * 2 ^ result.queued }
    ensures queued { result.queued < 8 }
{
    let low = scaled(at.low + add, more);
    let range = scaled(range, more);
    emit(
        bytes,
        Interval {
            low,
            range,
            queued: at.queued + more,
        },
    )
}

/// Doubles the number, and adds the range where the bin is 1.
#[inline]
pub fn halve(bytes: &mut PendingBytes, at: Interval, bit: bool) -> Interval
    requires register { at.low + at.range ≤ 1024 * 2 ^ at.queued }
    requires queued { at.queued < 8 }
    requires least { 2 ≤ at.range }
    requires most { at.range < 512 }
    requires bounded { IsBounded (whole bytes.old at.low at.range at.queued) }
    requires room { length bytes.old.start + bytes.old.count ≤ bytes.old.room }
    requires wide { bytes.old.count + 8 < 2 ^ 64 }
    ensures halved { whole bytes.new result.low result.range result.queued ≡ bypassing bit (whole bytes.old at.low at.range at.queued) }
    ensures grows { Grows bytes.old bytes.new }
    ensures register { result.low + result.range ≤ 1024 * 2 ^ result.queued }
    ensures queued { result.queued < 8 }
{
    let low = halved(at, bit);
    emit(
        bytes,
        Interval {
            low,
            range: at.range,
            queued: at.queued + 1,
        },
    )
}

#[inline]
fn halved(at: Interval, bit: bool) -> u32
    requires low { at.low < 2 ^ 20 }
    requires range { at.range < 512 }
    ensures { result ≡ 2 * at.low + cond bit at.range 0 }
{
    if bit {
        at.low * 2 + at.range
    } else {
        at.low * 2
    }
}

#[inline]
fn scaled(value: u32, by: u32) -> u32
    requires few { by ≤ 7 }
    requires small { value < 2 ^ 18 }
    ensures { result ≡ value * 2 ^ by }
{
    value << by
}

/// Moves eight queued digits to a byte, where there are eight.
#[inline]
fn emit(bytes: &mut PendingBytes, at: Interval) -> Interval
    requires register { at.low + at.range ≤ 1024 * 2 ^ at.queued }
    requires few { at.queued < 16 }
    requires positive { 0 < at.range }
    requires most { at.range < 512 }
    requires bounded { IsBounded (whole bytes.old at.low at.range at.queued) }
    requires room { length bytes.old.start + bytes.old.count ≤ bytes.old.room }
    requires wide { bytes.old.count + 8 < 2 ^ 64 }
    ensures same { whole bytes.new result.low result.range result.queued ≡ whole bytes.old at.low at.range at.queued }
    ensures grows { Grows bytes.old bytes.new }
    ensures register { result.low + result.range ≤ 1024 * 2 ^ result.queued }
    ensures queued { result.queued < 8 }
{
    if at.queued < 8 {
        return at;
    }
    let scale = at.queued + 1;
    let digit = high_digit(at.low, scale);
    bytes.push(digit);
    Interval {
        low: without(at.low, digit, scale),
        range: at.range,
        queued: at.queued - 8,
    }
}

// A digit of 511 would leave 255 where a carry may still come: 510 leaves that carry to the register.
fn high_digit(low: u32, scale: u32) -> u32
    requires { scale ≤ 16 }
    ensures { result ≡ min (low / 2 ^ scale) 510 }
{
    (low >> scale).min(510)
}

fn without(low: u32, digit: u32, scale: u32) -> u32
    requires few { scale ≤ 16 }
    requires within { digit * 2 ^ scale ≤ low }
    ensures { result ≡ low - digit * 2 ^ scale }
{
    low - (digit << scale)
}
