// Binarisations of numbers.
ghost use Rattle.std.specs.Prelude.{◌≡◌, ◌≢◌, ◌+◌, ◌<◌, ◌≤◌, ◌^◌, false};
ghost use Rattle.spec_syntax.specs.Numbers.{ones_string, number_string, golomb_string};
ghost use Rattle.bin_writer.specs.Coding.{seen, IsReady, Codes, CodesPlain};

use bin_writer::{code_bin, code_bypass};
use cabac_coder::Coder;
use cabac_contexts::Contexts;

/// Truncated unary (clause 9.3.2.2), each bin of one context.
pub fn code_ones(coder: &mut Coder, contexts: &mut Contexts, context: u16, most: u16, value: u16)
    requires ready { IsReady (seen coder.old contexts.old) }
    requires below { context < 436 }
    requires has_state { context ≢ 276 }
    ensures { Codes (seen coder.old contexts.old) (ones_string context most value) (seen coder.new contexts.new) }
{
    let count = value.min(most);
    let mut k = 0;
    while k < count {
        code_bin(coder, contexts, context, true);
        k += 1;
    }
    if value < most {
        code_bin(coder, contexts, context, false);
    }
}

fn power(k: u16) -> u32
    requires { k ≤ 16 }
    ensures { result ≡ 2 ^ k }
{
    1 << k
}

// So many bits by bypass, the high one first.
fn code_number(coder: &mut Coder, count: u16, value: u32)
    requires live { coder.old.ended ≡ false }
    requires below { value < 2 ^ count }
    requires small { count ≤ 16 }
    ensures { CodesPlain coder.old (number_string count value) coder.new }
{
    let mut left = count;
    let mut rest = value;
    while left > 0 {
        left -= 1;
        let half = power(left);
        if rest < half {
            code_bypass(coder, false);
        } else {
            code_bypass(coder, true);
            rest -= half;
        }
    }
}

/// Exp-Golomb of order 0 by bypass (the suffix of clause 9.3.2.3).
pub fn code_golomb(coder: &mut Coder, value: u32)
    requires live { coder.old.ended ≡ false }
    requires below { value ≤ 8176 }
    ensures { CodesPlain coder.old (golomb_string 13 0 value) coder.new }
{
    let mut k: u16 = 0;
    let mut rest = value;
    while rest >= power(k) {
        code_bypass(coder, true);
        rest -= power(k);
        k += 1;
    }
    code_bypass(coder, false);
    code_number(coder, k, rest);
}
