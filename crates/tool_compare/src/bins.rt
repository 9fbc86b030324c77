// `bins`: codes bins by the arithmetic coder. Each line has one bin, as `read_line` reads it. What is printed is a line
// for each code that a terminate 1 ends; a line behind a terminate 1 begins a new code.
ghost use Rattle.std.specs.Prelude.{◌≡◌, true, false, ◌↔◌, IsErr, OnOk, ℕ, ◌+◌, ◌/◌, ◌%◌, ◌≤◌, IsNone, IfSome, IfOk, Bool};
ghost use Rattle.spec_cabac.specs.Bins.{is_end};
ghost use Rattle.spec_cabac.specs.Code.{step};
ghost use Rattle.cabac_coder.specs.State.{coded_of, stepped, FullAt};
ghost use Rattle.tool_compare.specs.Bins.{flag, written, IsKnown, WritesNone, bin_of};

use crate::code::print_code;
use bit_strings::{BitBuf, Full};
use cabac_coder::Coder;
use enc_tables::CtxState;
use tool_input::Fault;

// The most bytes of a code.
const ROOM: u32 = 10_000_000;

/// A bin and how it is coded (ITU-T H.264, clause 9.3.4.2 to 9.3.4.5).
#[derive(Clone, Copy, Debug, PartialEq, Eq)]
pub enum Line {
    /// By a context with this state, in two digits: `c STATE MPS BIT`.
    Context(CtxState, bool),
    /// By two equal halves: `b BIT`.
    Bypass(bool),
    /// Whether the code ends: `t BIT`.
    Terminate(bool),
}

/// The bin that a line writes. A state is 00 to 63.
pub fn read_line(text: &[u8]) -> Option<Line>
    ensures read { IfSome result (λ line. text.now ≡ written line) }
    ensures known { IfSome result IsKnown }
    ensures refused { IsNone result → WritesNone text.now }
{
    match text {
        [b'b', b' ', bit] => Some(Line::Bypass(read_bit(*bit)?)),
        [b't', b' ', bit] => Some(Line::Terminate(read_bit(*bit)?)),
        [b'c', b' ', tens, ones, b' ', mps, b' ', bit] => Some(Line::Context(
            CtxState {
                state: read_state(*tens, *ones)?,
                mps: read_bit(*mps)?,
            },
            read_bit(*bit)?,
        )),
        _ => None,
    }
}

fn read_bit(byte: u8) -> Option<bool>
    ensures read { IfSome result (λ bit. byte ≡ flag bit) }
    ensures refused { IsNone result → (bit : Bool) → byte ≡ flag bit → ⊥ }
{
    match byte {
        b'0' => Some(false),
        b'1' => Some(true),
        _ => None,
    }
}

// A state of two digits.
fn read_state(tens: u8, ones: u8) -> Option<u8>
    ensures read { IfSome result (λ n. (tens ≡ 48 + n / 10) × (ones ≡ 48 + n % 10)) }
    ensures known { IfSome result (λ n. n ≤ 63) }
    ensures refused { IsNone result → (n : ℕ) → n ≤ 63 → tens ≡ 48 + n / 10 → ones ≡ 48 + n % 10 → ⊥ }
{
    if tens < b'0' || tens > b'6' || ones < b'0' || ones > b'9' {
        return None;
    }
    let state = 10 * (tens - b'0') + (ones - b'0');
    if state > 63 {
        return None;
    }
    Some(state)
}

// Codes a line's bin, by the state that it names.
fn code(coder: &mut Coder, line: Line) -> Result<(), Full>
    requires live { coder.old.ended ≡ false }
    requires known { IsKnown line }
    ensures full { IsErr result ↔ FullAt coder.old (step (bin_of line) (coded_of coder.old)) }
    ensures ok { OnOk result (coder.new ≡ stepped coder.old (step (bin_of line) (coded_of coder.old)) (is_end (bin_of line))) }
{
    match line {
        Line::Context(ctx, bit) => {
            let mut ctx = ctx;
            coder.bin(&mut ctx, bit)
        }
        Line::Bypass(bit) => coder.bypass(bit),
        Line::Terminate(bit) => coder.terminate(bit),
    }
}

fn ends(line: Line) -> bool
    ensures { result ≡ is_end (bin_of line) }
{
    line == Line::Terminate(true)
}

// Prints the code that ended, and begins another in its place.
fn next_coder(rt: &HostRuntime, coder: Coder) -> Result<Coder, Fault>
    requires ended { coder.ended ≡ true }
    requires fits { coder.full ≡ false }
    ensures live { IfOk result (λ next. next.ended ≡ false) }
{
    Ok(Coder::start(print_code(rt, coder.finish())?))
}

/// Codes the bins of the lines.
pub fn code_lines(rt: &HostRuntime, lines: &[String]) -> Result<(), Fault> {
    let mut coder = Coder::start(BitBuf::with_room(rt.alloc(), ROOM)?);
    let mut ended = false;
    for (place, text) in lines.iter().enumerate() {
        let Some(line) = read_line(text.as_bytes()) else {
            return Err(Fault::Line(place + 1, "a bin"));
        };
        if code(&mut coder, line).is_err() {
            return Err(Fault::Full);
        }
        ended = ends(line);
        if ended {
            coder = next_coder(rt, coder)?;
        }
    }
    if ended {
        Ok(())
    } else {
        Err(Fault::Input("whole: its last line has to be `t 1`"))
    }
}
