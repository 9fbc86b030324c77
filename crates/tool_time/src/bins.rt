// `bins`: codes recorded bins by the arithmetic coder. Standard input has one bin a line, as `read_line` reads it. Each
// code begins from the states of a P slice at the quantisation parameter 26 and ends with a terminate 1. What is
// printed is the number of bins of a code, its bytes, and a sum of the bytes of all codes.
ghost use Rattle.std.specs.Prelude.{◌≡◌, ℕ, ◌+◌, ◌/◌, ◌%◌, ◌≤◌, false, length, IsNone, IfSome, IfOk, Bool};
ghost use Rattle.std.specs.List.{All};
ghost use Rattle.spec_contexts.specs.States.{AllKnown};
ghost use Rattle.tool_time.specs.Bins.{flag, written, IsKnown, WritesNone};

use bit_strings::{BitBuf, Full};
use cabac_coder::Coder;
use cabac_contexts::{Contexts, state};
use enc_tables::{CtxState, SliceKind};
use std::alloc::Global;
use tool_input::{Fault, read_lines};

// The most bytes of a code.
const ROOM: u32 = 10_000_000;

/// A bin that was recorded, and how it is coded (ITU-T H.264, clause 9.3.4.2 to 9.3.4.5).
#[derive(Clone, Copy)]
pub enum Line {
    /// By the context of this number, in three digits: `c INDEX BIT`.
    Context(u16, bool),
    /// By two equal halves: `b BIT`.
    Bypass(bool),
    /// That the code doesn't end: `t 0`.
    GoesOn,
}

/// The bin that a line writes. A context's number is 000 to 435.
pub fn read_line(text: &[u8]) -> Option<Line>
    ensures read { IfSome result (λ line. text.now ≡ written line) }
    ensures known { IfSome result IsKnown }
    ensures refused { IsNone result → WritesNone text.now }
{
    match text {
        [b'b', b' ', bit] => Some(Line::Bypass(read_bit(*bit)?)),
        [b't', b' ', b'0'] => Some(Line::GoesOn),
        [b'c', b' ', hundreds, tens, ones, b' ', bit] => Some(Line::Context(
            read_index(*hundreds, *tens, *ones)?,
            read_bit(*bit)?,
        )),
        _ => None,
    }
}

fn read_bit(byte: u8) -> Option<bool>
    ensures read { IfSome result (λ bit. byte ≡ flag bit) }
    ensures refused { IsNone result → (bit : Bool) → byte ≡ flag bit → ⊥ }
{
    match byte {
        b'0' => Some(false),
        b'1' => Some(true),
        _ => None,
    }
}

// A context's number of three digits.
fn read_index(hundreds: u8, tens: u8, ones: u8) -> Option<u16>
    ensures read { IfSome result (λ n. (hundreds ≡ 48 + n / 100) × (tens ≡ 48 + n / 10 % 10) × (ones ≡ 48 + n % 10)) }
    ensures known { IfSome result (λ n. n ≤ 435) }
    ensures refused { IsNone result → (n : ℕ) → n ≤ 435 → hundreds ≡ 48 + n / 100 → tens ≡ 48 + n / 10 % 10 → ones ≡ 48 + n % 10 → ⊥ }
{
    if hundreds < b'0' || hundreds > b'4' {
        return None;
    }
    if tens < b'0' || tens > b'9' {
        return None;
    }
    if ones < b'0' || ones > b'9' {
        return None;
    }
    let index = 100 * u16::from(hundreds - b'0')
        + 10 * u16::from(tens - b'0')
        + u16::from(ones - b'0');
    if index > 435 {
        return None;
    }
    Some(index)
}

// Codes one bin.
#[inline]
fn code_bin(coder: &mut Coder, states: &mut [CtxState], line: Line) -> Result<(), Full>
    requires live { coder.old.ended ≡ false }
    requires number { length states.old ≡ 436 }
    requires states { AllKnown states.old }
    requires known { IsKnown line }
    ensures live { coder.new.ended ≡ false }
    ensures states { AllKnown states.new }
{
    match line {
        Line::Context(index, bit) => coder.bin(state(states, index), bit),
        Line::Bypass(bit) => coder.bypass(bit),
        Line::GoesOn => coder.terminate(false),
    }
}

// Codes the bins one after another.
fn code_bins(coder: &mut Coder, states: &mut [CtxState], bins: &[Line]) -> Result<(), Full>
    requires live { coder.old.ended ≡ false }
    requires number { length states.old ≡ 436 }
    requires states { AllKnown states.old }
    requires known { All IsKnown bins.now }
    ensures live { coder.new.ended ≡ false }
{
    for line in bins {
        code_bin(coder, states, *line)?;
    }
    Ok(())
}

// The code of the bins and of a terminate 1, filled up with zeros to a byte.
fn code_of(buf: BitBuf, bins: &[Line]) -> Result<BitBuf, Full>
    requires { All IsKnown bins.now }
    ensures { IfOk result (λ code. length code.text % 8 ≡ 0) }
{
    let mut contexts = Contexts::init(SliceKind::P, 26);
    let mut coder = Coder::start(buf);
    code_bins(&mut coder, &mut contexts.states, bins)?;
    coder.terminate(true)?;
    let mut code = coder.finish();
    code.align()?;
    Ok(code)
}

// A sum in which each byte counts by its place.
fn with_bytes(sum: u32, bytes: &[u8]) -> u32 {
    bytes.iter().fold(
        sum,
        |sum, byte| sum.wrapping_mul(31).wrapping_add(*byte as u32),
    )
}

fn read_bins(alloc: Global, lines: &[String]) -> Result<Vec<Line>, Fault>
    ensures { IfOk result (λ bins. All IsKnown bins.items) }
{
    let mut bins = Vec::new(alloc);
    for (place, text) in lines.iter().enumerate() {
        let Some(line) = read_line(text.as_bytes()) else {
            return Err(Fault::Line(place + 1, "a bin"));
        };
        if bins.push(line).is_err() {
            return Err(Fault::OutOfMemory);
        }
    }
    Ok(bins)
}

/// Codes the bins of standard input this often.
pub fn code(rt: &HostRuntime, times: u32) -> Result<(), Fault> {
    let lines = read_lines(rt)?;
    let bins = read_bins(rt.alloc(), lines.as_slice())?;
    let mut buf = BitBuf::with_room(rt.alloc(), ROOM)?;
    let mut sum = 0;
    let mut size = 0;
    for _ in 0..times {
        buf = code_of(buf, bins.as_slice())?;
        sum = with_bytes(sum, buf.bytes());
        size = buf.bytes().len();
        buf.clear();
    }
    println!(rt; "{} bins in {size} bytes, sum {sum}", bins.len())?;
    Ok(())
}
