// coded_block_pattern and mb_qp_delta.
ghost use Rattle.std.specs.Prelude.{◌≡◌, ◌≤◌, ◌∷◌, []};
ghost use Rattle.spec_partitions.specs.Near.{has_pattern as has_pattern_of, has_residual as has_residual_of};
ghost use Rattle.spec_macroblock.specs.Strings.{luma_cbp_string, chroma_cbp_string, qp_string, luma_pattern_incs};
ghost use Rattle.spec_macroblock.specs.Records.{IsRecord};
ghost use Rattle.bin_writer.specs.Coding.{seen, IsReady, Codes};
ghost use Rattle.mb_syntax.specs.Around.{near_of};

use crate::Around;
use bin_writer::code_bins;
use cabac_coder::Coder;
use cabac_contexts::{Contexts, inc_chroma_cbp, inc_luma_cbp, inc_qp_delta};
use enc_tables::{MbKind, MbRecord};
use mb_binarise::{bins_chroma_cbp, bins_luma_cbp, bins_qp_delta};

fn has_pattern(kind: MbKind) -> bool
    ensures { result ≡ has_pattern_of kind }
{
    !matches!(kind, MbKind::Intra16 | MbKind::PSkip | MbKind::BSkip)
}

/// The luma bits of the pattern.
pub fn write_luma_pattern(
    coder: &mut Coder,
    contexts: &mut Contexts,
    mb: &MbRecord,
    around: &Around,
)
    requires ready { IsReady (seen coder.old contexts.old) }
    requires record_ { IsRecord (near_of around.now mb.now) mb.now }
    ensures { Codes (seen coder.old contexts.old) (luma_cbp_string (near_of around.now mb.now) mb.now) (seen coder.new contexts.new) }
{
    if !has_pattern(mb.kind) {
        return;
    }
    let first = inc_luma_cbp(mb, around.left, around.above, 0);
    let second = inc_luma_cbp(mb, around.left, around.above, 1);
    let third = inc_luma_cbp(mb, around.left, around.above, 2);
    let fourth = inc_luma_cbp(mb, around.left, around.above, 3);
    let bins = bins_luma_cbp([first, second, third, fourth], mb.luma_cbp);
    code_bins(coder, contexts, bins.as_slice());
}

/// The chroma part of the pattern.
pub fn write_chroma_pattern(
    coder: &mut Coder,
    contexts: &mut Contexts,
    mb: &MbRecord,
    around: &Around,
)
    requires ready { IsReady (seen coder.old contexts.old) }
    requires record_ { IsRecord (near_of around.now mb.now) mb.now }
    ensures { Codes (seen coder.old contexts.old) (chroma_cbp_string (near_of around.now mb.now) mb.now) (seen coder.new contexts.new) }
{
    if !has_pattern(mb.kind) {
        return;
    }
    let first = inc_chroma_cbp(around.left, around.above, false);
    let second = inc_chroma_cbp(around.left, around.above, true);
    let bins = bins_chroma_cbp([first, second], mb.chroma_cbp);
    code_bins(coder, contexts, bins.as_slice());
}

fn has_residual(mb: &MbRecord) -> bool
    ensures { result ≡ has_residual_of mb.now }
{
    mb.kind.is_16x16() || mb.luma_cbp != 0 || mb.chroma_cbp != 0
}

/// mb_qp_delta, which is 0.
pub fn write_qp(coder: &mut Coder, contexts: &mut Contexts, mb: &MbRecord, around: &Around)
    requires ready { IsReady (seen coder.old contexts.old) }
    ensures { Codes (seen coder.old contexts.old) (qp_string (near_of around.now mb.now) mb.now) (seen coder.new contexts.new) }
{
    if has_residual(mb) {
        let bins = bins_qp_delta(inc_qp_delta(around.last_delta), 0);
        code_bins(coder, contexts, bins.as_slice());
    }
}
