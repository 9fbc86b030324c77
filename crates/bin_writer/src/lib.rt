//! Bins of syntax elements through the arithmetic coder, each with the state of its context (ITU-T H.264, clause
//! 9.3.4.2).
//!
//! The calls answer nothing: from the first bin that doesn't fit on nothing more is coded, and `Coder::is_full` tells
//! it.
#![tactic(auto)]

ghost use Rattle.std.specs.Prelude.{◌≡◌, ◌≢◌, ◌<◌, ℕ, [], ◌∷◌, false, true, ◌↔◌, IsErr};
ghost use Rattle.std.specs.List.{AllByRecursion};
ghost use Rattle.spec_syntax.specs.Syntax.{at};
ghost use Rattle.bin_writer.specs.Coding.{seen, IsReady, Codes, CodesPlain, IsCodable};

use bit_strings::Full;
use cabac_coder::Coder;
use cabac_contexts::{Contexts, state};
use enc_tables::{BYPASS, TERMINATE};
use spec_syntax::Bin;

/// Codes a bin by the state of a context, which then follows it. The context is below 436, and isn't that of the bins
/// before termination.
#[inline]
pub fn code_bin(coder: &mut Coder, contexts: &mut Contexts, context: u16, bit: bool)
    requires ready { IsReady (seen coder.old contexts.old) }
    requires below { context < 436 }
    requires has_state { context ≢ 276 }
    ensures { Codes (seen coder.old contexts.old) (at context bit ∷ []) (seen coder.new contexts.new) }
{
    // That the code is full stays known to the coder.
    let _ = coder.bin(state(&mut contexts.states, context), bit);
}

/// Codes a bin of two equal halves.
#[inline]
pub fn code_bypass(coder: &mut Coder, bit: bool)
    requires { coder.old.ended ≡ false }
    ensures { CodesPlain coder.old (at 1000 bit ∷ []) coder.new }
{
    // That the code is full stays known to the coder.
    let _ = coder.bypass(bit);
}

/// Codes that the code doesn't end here.
#[inline]
pub fn code_no_end(coder: &mut Coder)
    requires { coder.old.ended ≡ false }
    ensures { CodesPlain coder.old (at 276 false ∷ []) coder.new }
{
    // That the code is full stays known to the coder.
    let _ = coder.terminate(false);
}

fn code_one(coder: &mut Coder, contexts: &mut Contexts, bin: Bin)
    requires ready { IsReady (seen coder.old contexts.old) }
    requires codable { IsCodable bin }
    ensures { Codes (seen coder.old contexts.old) (bin ∷ []) (seen coder.new contexts.new) }
{
    match bin.ctx {
        BYPASS => code_bypass(coder, bin.bit),
        TERMINATE => code_no_end(coder),
        _ => code_bin(coder, contexts, bin.ctx, bin.bit),
    }
}

/// Codes bins of which none ends the code.
pub fn code_bins(coder: &mut Coder, contexts: &mut Contexts, bins: &[Bin])
    requires ready { IsReady (seen coder.old contexts.old) }
    requires codable { AllByRecursion IsCodable bins.now }
    ensures { Codes (seen coder.old contexts.old) bins.now (seen coder.new contexts.new) }
{
    for bin in bins {
        code_one(coder, contexts, *bin);
    }
}

/// `Full` where a bin didn't fit.
pub fn outcome(coder: &Coder) -> Result<(), Full>
    ensures { IsErr result ↔ coder.now.full ≡ true }
{
    if coder.is_full() {
        return Err(Full);
    }
    Ok(())
}
