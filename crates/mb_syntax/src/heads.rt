// What a macroblock is, and its intra chroma mode.
ghost use Rattle.std.specs.Prelude.{◌≡◌, ◌≤◌, ◌&&◌, false};
ghost use Rattle.enc_tables.specs.Kinds.{is_nxn as nxn, is_skipped as skipped};
ghost use Rattle.enc_tables.specs.declared.records.MbRecord.{MbRecord};
ghost use Rattle.spec_contexts.specs.Near.{pointed};
ghost use Rattle.spec_contexts.specs.Increments.{inc_skip as inc_skip_of};
ghost use Rattle.spec_syntax.specs.Syntax.{flag_string};
ghost use Rattle.spec_syntax.specs.Sequences.{string_where};
ghost use Rattle.spec_syntax.specs.Inter.{has_inter as has_inter_of, skip_at};
ghost use Rattle.spec_partitions.specs.Near.{can_have_8x8 as can_have_8x8_of};
ghost use Rattle.spec_macroblock.specs.Strings.{inc_type, head_string, mb_type_string, transform_string, inter_transform_string, intra_chroma_string};
ghost use Rattle.spec_macroblock.specs.Records.{IsRecord};
ghost use Rattle.bin_writer.specs.Coding.{seen, IsReady, Codes};
ghost use Rattle.mb_syntax.specs.Around.{near_of};

use crate::Around;
use crate::parts::write_partitions;
use bin_writer::{code_bin, code_bins};
use cabac_coder::Coder;
use cabac_contexts::{Contexts, inc_chroma_mode, inc_skip, inc_transform, inc_type_b, inc_type_i};
use enc_tables::{MbRecord, SliceKind, TRANSFORM_OFFSET};
use mb_binarise::{bins_chroma_mode, bins_skip, bins_type};

fn has_inter(kind: SliceKind) -> bool
    ensures { result ≡ has_inter_of kind }
{
    !matches!(kind, SliceKind::I)
}

// mb_skip_flag, which I slices don't have.
fn write_skip(coder: &mut Coder, contexts: &mut Contexts, mb: &MbRecord, around: &Around)
    requires ready { IsReady (seen coder.old contexts.old) }
    ensures { Codes (seen coder.old contexts.old) (string_where (has_inter_of around.now.kind) (flag_string (skip_at around.now.kind (inc_skip_of (pointed around.now.left) (pointed around.now.above))) (skipped mb.now.kind))) (seen coder.new contexts.new) }
{
    if !has_inter(around.kind) {
        return;
    }
    let inc = inc_skip(around.left, around.above);
    let bins = bins_skip(around.kind, inc, mb.kind.is_skipped());
    code_bins(coder, contexts, bins.as_slice());
}

fn type_inc(around: &Around) -> u8
    ensures { (mb : MbRecord) → result ≡ inc_type around.now.kind (near_of around.now mb) }
{
    match around.kind {
        SliceKind::I => inc_type_i(around.left, around.above),
        SliceKind::P => 0,
        SliceKind::B => inc_type_b(around.left, around.above),
    }
}

// mb_type.
fn write_type(coder: &mut Coder, contexts: &mut Contexts, mb: &MbRecord, around: &Around)
    requires ready { IsReady (seen coder.old contexts.old) }
    requires record_ { IsRecord (near_of around.now mb.now) mb.now }
    requires coded { skipped mb.now.kind ≡ false }
    ensures { Codes (seen coder.old contexts.old) (mb_type_string (near_of around.now mb.now) mb.now) (seen coder.new contexts.new) }
{
    let inc = type_inc(around);
    let bins = bins_type(around.kind, inc, mb);
    code_bins(coder, contexts, bins.as_slice());
}

/// mb_skip_flag, mb_type, and what is written of partitions.
pub fn write_head(coder: &mut Coder, contexts: &mut Contexts, mb: &MbRecord, around: &Around)
    requires ready { IsReady (seen coder.old contexts.old) }
    requires record_ { IsRecord (near_of around.now mb.now) mb.now }
    ensures { Codes (seen coder.old contexts.old) (head_string (near_of around.now mb.now) mb.now) (seen coder.new contexts.new) }
{
    write_skip(coder, contexts, mb, around);
    if mb.kind.is_skipped() {
        return;
    }
    write_type(coder, contexts, mb, around);
    write_partitions(coder, contexts, mb, around);
}

fn has_transform(mb: &MbRecord, around: &Around) -> bool
    ensures { result ≡ (around.now.t8x8 && nxn mb.now.kind) }
{
    around.t8x8 && mb.kind.is_nxn()
}

/// transform_size_8x8_flag of I_NxN.
pub fn write_transform(coder: &mut Coder, contexts: &mut Contexts, mb: &MbRecord, around: &Around)
    requires ready { IsReady (seen coder.old contexts.old) }
    ensures { Codes (seen coder.old contexts.old) (transform_string (near_of around.now mb.now) mb.now) (seen coder.new contexts.new) }
{
    if has_transform(mb, around) {
        let inc = inc_transform(around.left, around.above);
        code_bin(
            coder,
            contexts,
            TRANSFORM_OFFSET + inc as u16,
            mb.transform8,
        );
    }
}

fn can_have_8x8(mb: &MbRecord) -> bool
    ensures { result ≡ can_have_8x8_of mb.now }
{
    !mb.kind.is_intra() && mb.luma_cbp != 0
}

fn has_inter_transform(mb: &MbRecord, around: &Around) -> bool
    ensures { result ≡ (around.now.t8x8 && can_have_8x8_of mb.now) }
{
    around.t8x8 && can_have_8x8(mb)
}

/// transform_size_8x8_flag of inter macroblocks.
pub fn write_inter_transform(
    coder: &mut Coder,
    contexts: &mut Contexts,
    mb: &MbRecord,
    around: &Around,
)
    requires ready { IsReady (seen coder.old contexts.old) }
    ensures { Codes (seen coder.old contexts.old) (inter_transform_string (near_of around.now mb.now) mb.now) (seen coder.new contexts.new) }
{
    if has_inter_transform(mb, around) {
        let inc = inc_transform(around.left, around.above);
        code_bin(
            coder,
            contexts,
            TRANSFORM_OFFSET + inc as u16,
            mb.transform8,
        );
    }
}

/// intra_chroma_pred_mode.
pub fn write_chroma_mode(coder: &mut Coder, contexts: &mut Contexts, mb: &MbRecord, around: &Around)
    requires ready { IsReady (seen coder.old contexts.old) }
    requires record_ { IsRecord (near_of around.now mb.now) mb.now }
    ensures { Codes (seen coder.old contexts.old) (intra_chroma_string (near_of around.now mb.now) mb.now) (seen coder.new contexts.new) }
{
    if !mb.kind.is_intra() {
        return;
    }
    let inc = inc_chroma_mode(around.left, around.above);
    let bins = bins_chroma_mode(inc, mb.chroma_mode);
    code_bins(coder, contexts, bins.as_slice());
}
