// Bins, coded behind the bits of a buffer (ITU-T H.264, clause 9.3.4).
ghost use Rattle.std.specs.Prelude.{◌≡◌, ℕ, ◌+◌, ◌-◌, ◌*◌, ◌/◌, ◌%◌, ◌^◌, ◌<◌, ◌≤◌, ◌↔◌, ◌⊎◌, Bool, true, false, List, length, drop, ◌++◌, IsTrue, IsFalse, IsErr, OnOk, OnErr};
ghost use Rattle.enc_tables.specs.Arithmetic.{state_after};
ghost use Rattle.spec_cabac.specs.Bins.{Bin, EndsOnce};
ghost use Rattle.spec_cabac.specs.Bins.Bin.{Answered};
ghost use Rattle.spec_cabac.specs.Bins.Request.{Context, Bypass, Terminate};
ghost use Rattle.spec_cabac.specs.Code.{renormalised, step, run, flushed, arith_code, coded_start};
ghost use Rattle.spec_cabac.specs.Law.{ReadsBack};
ghost use Rattle.cabac_coder.specs.Whole.{moved};
ghost use Rattle.cabac_coder.specs.State.{CoderState, coded_of, stepped, state_of, FullAt, CoderHolds};

use crate::interval::{Interval, doublings, halve, narrow};
use crate::pending::PendingBytes;
use bit_strings::{BitBuf, Full};
use enc_tables::{CtxState, lps_range, next_state};
use std::marker::Model;

/// Codes bins behind the bits of a buffer. It keeps no list of bins: only the bytes that a carry may still reach, the
/// register and the range.
///
/// Contracts see the bits, the room and the bits made of the buffer at the start, the code's whole number with its
/// doublings and the range, whether a terminate 1 was coded, and whether a bin did not fit. A bin fits where the bits
/// of a code that ends after it fit the room; from the first one that does not fit each call answers `Full`.
#[derive(Drop)]
pub struct Coder {
    bytes: PendingBytes,
    at: Interval,
    shifts: u64,
    // the doublings that are too many for the room, and 0 after Full
    bound: u64,
    ended: bool,
    full: bool,
}

impl Model for Coder {
    ghost Value = { CoderState };

    ghost view = { λ c. state_of c.bytes c.at.low c.at.range c.at.queued c.ended c.full };

    ghost invariant = { λ c. CoderHolds c.bytes c.at.low c.at.range c.at.queued c.shifts c.bound c.ended c.full };
}

impl Coder {
    /// No bins yet, behind the buffer's bits (clause 9.3.4.1).
    pub fn start(buf: BitBuf) -> Coder
        ensures { result ≡ record { start = buf.text; room = buf.room; made = buf.made; low = 0; shifts = 0; range = 510; ended = false; full = false } }
    {
        let bound = buf.room_left().saturating_sub(8);
        Coder {
            bytes: PendingBytes::start(buf),
            at: Interval {
                low: 0,
                range: 510,
                queued: 0,
            },
            shifts: 0,
            bound,
            ended: false,
            full: false,
        }
    }

    /// Codes a bin by a context, whose state then follows the bin (clause 9.3.4.2). After `Full` the context is as it
    /// was.
    #[inline]
    pub fn bin(&mut self, ctx: &mut CtxState, bit: bool) -> Result<(), Full>
        requires live { self.old.ended ≡ false }
        requires known { ctx.old.state ≤ 63 }
        ensures full { IsErr result ↔ FullAt self.old (step (Answered (Context ctx.old) bit) (coded_of self.old)) }
        ensures ok { OnOk result (self.new ≡ stepped self.old (step (Answered (Context ctx.old) bit) (coded_of self.old)) false) }
        ensures context { OnOk result (ctx.new ≡ state_after ctx.old bit) }
        ensures known { ctx.new.state ≤ 63 }
        ensures err { OnErr result (self.new ≡ record self.old { full = true }) }
        ensures err_context { OnErr result (ctx.new ≡ ctx.old) }
    {
        self.code(*ctx, bit)?;
        *ctx = next_state(*ctx, bit);
        Ok(())
    }

    #[inline]
    fn code(&mut self, ctx: CtxState, bit: bool) -> Result<(), Full>
        requires live { self.old.ended ≡ false }
        requires known { ctx.state ≤ 63 }
        ensures full { IsErr result ↔ FullAt self.old (step (Answered (Context ctx) bit) (coded_of self.old)) }
        ensures ok { OnOk result (self.new ≡ stepped self.old (step (Answered (Context ctx) bit) (coded_of self.old)) false) }
        ensures err { OnErr result (self.new ≡ record self.old { full = true }) }
    {
        let range = self.at.range;
        let size = lps_range(ctx.state, range);
        let cut = range - size;
        if bit == ctx.mps {
            self.advance(0, cut)
        } else {
            self.advance(cut, size)
        }
    }

    /// Codes a bin of two equal halves (clause 9.3.4.4).
    #[inline]
    pub fn bypass(&mut self, bit: bool) -> Result<(), Full>
        requires live { self.old.ended ≡ false }
        ensures full { IsErr result ↔ FullAt self.old (step (Answered Bypass bit) (coded_of self.old)) }
        ensures ok { OnOk result (self.new ≡ stepped self.old (step (Answered Bypass bit) (coded_of self.old)) false) }
        ensures err { OnErr result (self.new ≡ record self.old { full = true }) }
    {
        if self.shifts + 1 >= self.bound {
            self.stop();
            return Err(Full);
        }
        self.at = halve(&mut self.bytes, self.at, bit);
        self.shifts += 1;
        Ok(())
    }

    /// Codes whether the code ends here (clause 9.3.4.5).
    #[inline]
    pub fn terminate(&mut self, bit: bool) -> Result<(), Full>
        requires live { self.old.ended ≡ false }
        ensures full { IsErr result ↔ FullAt self.old (step (Answered Terminate bit) (coded_of self.old)) }
        ensures ok { OnOk result (self.new ≡ stepped self.old (step (Answered Terminate bit) (coded_of self.old)) bit) }
        ensures err { OnErr result (self.new ≡ record self.old { full = true }) }
    {
        if !bit {
            let cut = self.at.range - 2;
            return self.advance(0, cut);
        }
        self.end()
    }

    fn end(&mut self) -> Result<(), Full>
        requires live { self.old.ended ≡ false }
        ensures full { IsErr result ↔ FullAt self.old (step (Answered Terminate true) (coded_of self.old)) }
        ensures ok { OnOk result (self.new ≡ stepped self.old (step (Answered Terminate true) (coded_of self.old)) true) }
        ensures err { OnErr result (self.new ≡ record self.old { full = true }) }
    {
        if self.shifts >= self.bound {
            self.stop();
            return Err(Full);
        }
        self.at = Interval {
            low: self.at.low + (self.at.range - 2),
            range: 2,
            queued: self.at.queued,
        };
        self.ended = true;
        Ok(())
    }

    #[inline]
    fn advance(&mut self, add: u32, range: u32) -> Result<(), Full>
        requires within { add + range ≤ self.old.range }
        requires least { 2 ≤ range }
        requires most { range < 512 }
        requires live { self.old.ended ≡ false }
        ensures full { IsErr result ↔ FullAt self.old (renormalised 7 (moved add range (coded_of self.old))) }
        ensures ok { OnOk result (self.new ≡ stepped self.old (renormalised 7 (moved add range (coded_of self.old))) false) }
        ensures err { OnErr result (self.new ≡ record self.old { full = true }) }
    {
        let more = doublings(range);
        if self.shifts + more as u64 >= self.bound {
            self.stop();
            return Err(Full);
        }
        self.at = narrow(&mut self.bytes, self.at, add, range, more);
        self.shifts += more as u64;
        Ok(())
    }

    fn stop(&mut self)
        ensures { self.new ≡ record self.old { full = true } }
    {
        self.full = true;
        self.bound = 0;
    }

    /// The doublings so far. A code that ended now would have nine bits more than that.
    pub fn shifts(&self) -> u64
        ensures { result ≡ self.now.shifts }
    {
        self.shifts
    }

    /// Whether a bin did not fit.
    pub fn is_full(&self) -> bool
        ensures { result ≡ self.now.full }
    {
        self.full
    }

    /// The bits at the start and then those of the code (clause 9.3.4.5), of which the last is 1.
    pub fn finish(self) -> BitBuf
        requires ended { self.ended ≡ true }
        requires fits { self.full ≡ false }
        ensures bits { result ≡ record { text = self.start ++ flushed (coded_of self); room = self.room; made = self.made } }

        // Whatever bins led here, these are the bits of their code, and where they end once the decoder reads them
        // back.
        ensures code { (bins : List Bin) → run bins coded_start ≡ coded_of self → result.text ≡ self.start ++ arith_code bins }
        ensures read_back { (bins : List Bin) → EndsOnce bins → run bins coded_start ≡ coded_of self → ReadsBack bins (drop (length self.start) result.text) }
    {
        let Coder {
            bytes,
            at,
            shifts: _,
            bound: _,
            ended: _,
            full: _,
        } = self;
        let size = 9 + at.queued;
        bytes.finish(carries(at.low, size), size as u8, last_digits(at.low, size))
    }

    /// The buffer as it was at the start.
    pub fn give_back(self) -> BitBuf
        ensures { result ≡ record { text = self.start; room = self.room; made = self.made } }
    {
        let Coder {
            bytes,
            at: _,
            shifts: _,
            bound: _,
            ended: _,
            full: _,
        } = self;
        bytes.give_back()
    }
}

fn carries(low: u32, size: u32) -> bool
    requires { size < 32 }
    ensures carry { IsTrue result → 2 ^ size ≤ low }
    ensures none { IsFalse result → low < 2 ^ size }
{
    low >= 1 << size
}

fn last_digits(low: u32, size: u32) -> u64
    requires { size < 32 }
    ensures { result ≡ low % 2 ^ size / 2 * 2 + 1 }
{
    (low % (1 << size) / 2 * 2 + 1) as u64
}
