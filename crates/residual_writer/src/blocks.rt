// Whole blocks.
ghost use Rattle.std.specs.Prelude.{◌≡◌, ◌-◌, ◌<◌, ◌≤◌, false, length, map};
ghost use Rattle.spec_syntax.specs.Blocks.{none, nonzero, block_string, some_levels_string};
ghost use Rattle.bin_writer.specs.Coding.{seen, IsReady, Codes};
ghost use Rattle.residual_writer.specs.Parts.{AreLevels};

use crate::levels::code_levels;
use crate::significance::{code_significance, last_level};
use bin_writer::code_bin;
use cabac_coder::Coder;
use cabac_contexts::Contexts;
use mb_binarise::coded_context;

/// Codes a block: coded_block_flag, whose context has the increment `inc`, and its levels, where one isn't 0.
pub fn write_block(
    coder: &mut Coder,
    contexts: &mut Contexts,
    category: u8,
    inc: u8,
    levels: &[i16],
)
    requires ready { IsReady (seen coder.old contexts.old) }
    requires category { category ≤ 4 }
    requires inc { inc ≤ 3 }
    requires some { 0 < length levels.now }
    requires size { length levels.now ≤ 64 }
    requires range { AreLevels levels.now }
    ensures { Codes (seen coder.old contexts.old) (block_string category inc (length levels.now - 1) levels.now) (seen coder.new contexts.new) }
{
    let context = coded_context(category, inc);
    match last_level(levels) {
        None => code_bin(coder, contexts, context, false),
        Some(last) => {
            code_bin(coder, contexts, context, true);
            code_significance(coder, contexts, category, levels, last);
            code_levels(coder, contexts, category, levels, last);
        }
    }
}

/// Codes the levels of a block that has one that isn't 0 and no coded_block_flag, as an 8x8 block.
pub fn write_some_levels(coder: &mut Coder, contexts: &mut Contexts, category: u8, levels: &[i16])
    requires ready { IsReady (seen coder.old contexts.old) }
    requires category { category ≤ 5 }
    requires size { length levels.now ≤ 64 }
    requires some { none (map nonzero levels.now) ≡ false }
    requires range { AreLevels levels.now }
    ensures { Codes (seen coder.old contexts.old) (some_levels_string category (length levels.now - 1) levels.now) (seen coder.new contexts.new) }
{
    if let Some(last) = last_level(levels) {
        code_significance(coder, contexts, category, levels, last);
        code_levels(coder, contexts, category, levels, last);
    }
}
