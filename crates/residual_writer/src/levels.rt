// The levels of a block, from the last one to the first (clause 7.3.5.3.3).
ghost use Rattle.std.specs.Prelude.{◌≡◌, ◌+◌, ◌<◌, ◌≤◌, nat_abs, get_or, length, pos};
ghost use Rattle.spec_syntax.specs.Levels.{first_at, others_at, minus1_string};
ghost use Rattle.spec_syntax.specs.Blocks.{levels_string};
ghost use Rattle.bin_writer.specs.Coding.{seen, IsReady, Codes};
ghost use Rattle.residual_writer.specs.Parts.{AreLevels, IsLast, sized_string, negative, above_by, one_by};

use crate::numbers::{code_golomb, code_ones};
use bin_writer::{code_bin, code_bypass};
use cabac_coder::Coder;
use cabac_contexts::Contexts;
use mb_binarise::{first_context, others_context};

// coeff_abs_level_minus1, after levels above 1 and levels of 1.
fn code_size(
    coder: &mut Coder,
    contexts: &mut Contexts,
    category: u8,
    above: u8,
    ones: u8,
    minus1: u16,
)
    requires ready { IsReady (seen coder.old contexts.old) }
    requires category { category ≤ 5 }
    requires range { minus1 ≤ 8190 }
    ensures { Codes (seen coder.old contexts.old) (minus1_string (first_at category above ones) (others_at category above) minus1) (seen coder.new contexts.new) }
{
    let first = first_context(category, above, ones);
    if minus1 == 0 {
        code_bin(coder, contexts, first, false);
        return;
    }
    code_bin(coder, contexts, first, true);
    code_ones(
        coder,
        contexts,
        others_context(category, above),
        13,
        minus1 - 1,
    );
    if minus1 > 13 {
        code_golomb(coder, (minus1 - 14) as u32);
    }
}

// A level by its size and sign; one that is 0 has no bins.
fn code_level(
    coder: &mut Coder,
    contexts: &mut Contexts,
    category: u8,
    above: u8,
    ones: u8,
    size: u16,
    is_negative: bool,
)
    requires ready { IsReady (seen coder.old contexts.old) }
    requires category { category ≤ 5 }
    requires range { size ≤ 8191 }
    ensures { Codes (seen coder.old contexts.old) (sized_string category above ones size is_negative) (seen coder.new contexts.new) }
{
    if size > 0 {
        code_size(coder, contexts, category, above, ones, size - 1);
        code_bypass(coder, is_negative);
    }
}

fn size_at(levels: &[i16], i: usize) -> u16
    requires { i < length levels.now }
    ensures { result ≡ nat_abs (get_or levels.now i (pos 0)) }
{
    levels[i].unsigned_abs()
}

fn negative_at(levels: &[i16], i: usize) -> bool
    requires { i < length levels.now }
    ensures { result ≡ negative (get_or levels.now i (pos 0)) }
{
    levels[i] < 0
}

fn above_by(size: u16) -> u8
    ensures { result ≡ above_by size }
{
    match size {
        0 | 1 => 0,
        _ => 1,
    }
}

fn one_by(size: u16) -> u8
    ensures { result ≡ one_by size }
{
    match size {
        1 => 1,
        _ => 0,
    }
}

/// The levels of a block whose last one that isn't 0 stands at `last`.
pub fn code_levels(
    coder: &mut Coder,
    contexts: &mut Contexts,
    category: u8,
    levels: &[i16],
    last: usize,
)
    requires ready { IsReady (seen coder.old contexts.old) }
    requires category { category ≤ 5 }
    requires size { length levels.now ≤ 64 }
    requires range { AreLevels levels.now }
    requires last { IsLast levels.now last }
    ensures { Codes (seen coder.old contexts.old) (levels_string category levels.now) (seen coder.new contexts.new) }
{
    let mut i = last + 1;
    let mut above: u8 = 0;
    let mut ones: u8 = 0;
    while i > 0 {
        i -= 1;
        let size = size_at(levels, i);
        code_level(
            coder,
            contexts,
            category,
            above,
            ones,
            size,
            negative_at(levels, i),
        );
        above += above_by(size);
        ones += one_by(size);
    }
}
