// Which places of a block have a level (clause 7.3.5.3.3).
ghost use Rattle.std.specs.Prelude.{◌≡◌, ◌+◌, ◌-◌, ◌<◌, ◌≤◌, [], ◌∷◌, true, get_or, length, map, pos, MatchOption};
ghost use Rattle.spec_syntax.specs.Syntax.{at};
ghost use Rattle.spec_syntax.specs.Levels.{significant_at, last_at};
ghost use Rattle.spec_syntax.specs.Blocks.{none, nonzero, significance_string};
ghost use Rattle.bin_writer.specs.Coding.{seen, IsReady, Codes};
ghost use Rattle.residual_writer.specs.Parts.{IsLast, place_string};

use bin_writer::code_bin;
use cabac_coder::Coder;
use cabac_contexts::Contexts;
use mb_binarise::{last_context, significant_context};

fn is_level(levels: &[i16], i: usize) -> bool
    requires { i < length levels.now }
    ensures { result ≡ nonzero (get_or levels.now i (pos 0)) }
{
    levels[i] > 0 || levels[i] < 0
}

/// The place of the last level that isn't 0.
pub fn last_level(levels: &[i16]) -> Option<usize>
    ensures { MatchOption result (none (map nonzero levels.now) ≡ true) (λ last. IsLast levels.now last) }
{
    let mut i = levels.len();
    while i > 0 {
        i -= 1;
        if is_level(levels, i) {
            return Some(i);
        }
    }
    None
}

fn code_significant(coder: &mut Coder, contexts: &mut Contexts, category: u8, place: u8, flag: bool)
    requires ready { IsReady (seen coder.old contexts.old) }
    requires category { category ≤ 5 }
    requires place { place < 63 }
    ensures { Codes (seen coder.old contexts.old) (at (significant_at category place) flag ∷ []) (seen coder.new contexts.new) }
{
    code_bin(coder, contexts, significant_context(category, place), flag);
}

fn code_last(coder: &mut Coder, contexts: &mut Contexts, category: u8, place: u8, flag: bool)
    requires ready { IsReady (seen coder.old contexts.old) }
    requires category { category ≤ 5 }
    requires place { place < 63 }
    ensures { Codes (seen coder.old contexts.old) (at (last_at category place) flag ∷ []) (seen coder.new contexts.new) }
{
    code_bin(coder, contexts, last_context(category, place), flag);
}

// A place before that of the last level.
fn code_place(coder: &mut Coder, contexts: &mut Contexts, category: u8, place: u8, here: bool)
    requires ready { IsReady (seen coder.old contexts.old) }
    requires category { category ≤ 5 }
    requires place { place < 63 }
    ensures { Codes (seen coder.old contexts.old) (place_string category place here) (seen coder.new contexts.new) }
{
    code_significant(coder, contexts, category, place, here);
    if here {
        code_last(coder, contexts, category, place, false);
    }
}

/// The flags of a block whose last level that isn't 0 stands at `last`.
pub fn code_significance(
    coder: &mut Coder,
    contexts: &mut Contexts,
    category: u8,
    levels: &[i16],
    last: usize,
)
    requires ready { IsReady (seen coder.old contexts.old) }
    requires category { category ≤ 5 }
    requires size { length levels.now ≤ 64 }
    requires last { IsLast levels.now last }
    ensures { Codes (seen coder.old contexts.old) (significance_string category 0 (length levels.now - 1) (map nonzero levels.now)) (seen coder.new contexts.new) }
{
    for place in 0..last {
        let here = is_level(levels, place);
        code_place(coder, contexts, category, place as u8, here);
    }
    if last + 1 < levels.len() {
        code_significant(coder, contexts, category, last as u8, true);
        code_last(coder, contexts, category, last as u8, true);
    }
}
