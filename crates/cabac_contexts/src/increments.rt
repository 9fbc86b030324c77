// Which context an element takes, by the macroblocks at the left and above (ITU-T H.264, clause 9.3.3.1.1).
ghost use Rattle.std.specs.Prelude.{◌≡◌, ◌≤◌, ◌==◌, not, if◌then◌else◌};
ghost use Rattle.spec_contexts.specs.Near.{pointed};
ghost use Rattle.spec_contexts.specs.Increments.{bit_of, weight as weight_of, plain as plain_of, doubled as doubled_of, skip_flag as skip_flag_of, type_i_flag as type_i_flag_of, type_b_flag as type_b_flag_of, chroma_mode_flag as chroma_mode_flag_of, transform_flag as transform_flag_of, luma_cbp_flag as luma_cbp_flag_of, chroma_cbp_flag as chroma_cbp_flag_of, inc_skip as inc_skip_of, inc_type_i as inc_type_i_of, inc_type_b as inc_type_b_of, inc_chroma_mode as inc_chroma_mode_of, inc_transform as inc_transform_of, inc_qp_delta as inc_qp_delta_of, inc_luma_cbp as inc_luma_cbp_of, inc_chroma_cbp as inc_chroma_cbp_of};

use crate::near::{above_block2, above_of2, left_block2, left_of2};
use enc_tables::MbRecord;

#[inline]
pub fn weight(flag: bool) -> u8
    ensures value { result ≡ weight_of flag }
    ensures most { result ≤ 1 }
{
    u8::from(flag)
}

// The left flag and the one above.
#[inline]
pub fn plain(left: bool, above: bool) -> u8
    ensures value { result ≡ plain_of left above }
    ensures most { result ≤ 2 }
{
    weight(left) + weight(above)
}

// The left flag and twice the one above.
#[inline]
pub fn doubled(left: bool, above: bool) -> u8
    ensures value { result ≡ doubled_of left above }
    ensures most { result ≤ 3 }
{
    weight(left) + 2 * weight(above)
}

fn skip_flag(near: Option<&MbRecord>) -> bool
    ensures { result ≡ skip_flag_of (pointed near.entry) }
{
    match near {
        Some(mb) => !mb.kind.is_skipped(),
        None => false,
    }
}

fn type_i_flag(near: Option<&MbRecord>) -> bool
    ensures { result ≡ type_i_flag_of (pointed near.entry) }
{
    match near {
        Some(mb) => !mb.kind.is_nxn(),
        None => false,
    }
}

fn type_b_flag(near: Option<&MbRecord>) -> bool
    ensures { result ≡ type_b_flag_of (pointed near.entry) }
{
    match near {
        Some(mb) => !mb.kind.is_direct(),
        None => false,
    }
}

fn chroma_mode_flag(near: Option<&MbRecord>) -> bool
    ensures { result ≡ chroma_mode_flag_of (pointed near.entry) }
{
    match near {
        Some(mb) => mb.kind.is_intra() && !mb.kind.is_pcm() && mb.chroma_mode != 0,
        None => false,
    }
}

fn transform_flag(near: Option<&MbRecord>) -> bool
    ensures { result ≡ transform_flag_of (pointed near.entry) }
{
    match near {
        Some(mb) => mb.transform8,
        None => false,
    }
}

/// Whether the pattern has the bit of 8x8 block `block`.
#[inline]
pub fn has_bit(pattern: u8, block: u8) -> bool
    requires { block ≤ 3 }
    ensures { result ≡ bit_of pattern block }
{
    (pattern >> block) & 1 == 1
}

fn luma_cbp_flag(near: Option<&MbRecord>, block: u8) -> bool
    requires { block ≤ 3 }
    ensures { result ≡ luma_cbp_flag_of block (pointed near.entry) }
{
    match near {
        Some(mb) => !mb.kind.is_pcm() && (mb.kind.is_skipped() || !has_bit(mb.luma_cbp, block)),
        None => false,
    }
}

fn chroma_cbp_flag(near: Option<&MbRecord>, second: bool) -> bool
    ensures { result ≡ chroma_cbp_flag_of second (pointed near.entry) }
{
    match near {
        Some(mb) => mb.kind.is_pcm()
            || (!mb.kind.is_skipped() && has_chroma(mb.chroma_cbp, second)),
        None => false,
    }
}

fn has_chroma(pattern: u8, second: bool) -> bool
    ensures { result ≡ (if second then pattern == 2 else not (pattern == 0)) }
{
    if second { pattern == 2 } else { pattern != 0 }
}

/// The increment of mb_skip_flag's context (clause 9.3.3.1.1.1). `left` and `above` are None where that macroblock
/// isn't available, here as in the other calls.
#[tactic(auto, unfolding(spec_contexts::specs::Increments::inc_skip))]
pub fn inc_skip(left: Option<&MbRecord>, above: Option<&MbRecord>) -> u8
    ensures value { result ≡ inc_skip_of (pointed left.entry) (pointed above.entry) }
    ensures most { result ≤ 2 }
{
    plain(skip_flag(left), skip_flag(above))
}

/// The increment of mb_type's first context in I slices (clause 9.3.3.1.1.3).
#[tactic(auto, unfolding(spec_contexts::specs::Increments::inc_type_i))]
pub fn inc_type_i(left: Option<&MbRecord>, above: Option<&MbRecord>) -> u8
    ensures value { result ≡ inc_type_i_of (pointed left.entry) (pointed above.entry) }
    ensures most { result ≤ 2 }
{
    plain(type_i_flag(left), type_i_flag(above))
}

/// The increment of mb_type's first context in B slices (clause 9.3.3.1.1.3).
#[tactic(auto, unfolding(spec_contexts::specs::Increments::inc_type_b))]
pub fn inc_type_b(left: Option<&MbRecord>, above: Option<&MbRecord>) -> u8
    ensures value { result ≡ inc_type_b_of (pointed left.entry) (pointed above.entry) }
    ensures most { result ≤ 2 }
{
    plain(type_b_flag(left), type_b_flag(above))
}

/// The increment of intra_chroma_pred_mode's first context (clause 9.3.3.1.1.8).
#[tactic(auto, unfolding(spec_contexts::specs::Increments::inc_chroma_mode))]
pub fn inc_chroma_mode(left: Option<&MbRecord>, above: Option<&MbRecord>) -> u8
    ensures value { result ≡ inc_chroma_mode_of (pointed left.entry) (pointed above.entry) }
    ensures most { result ≤ 2 }
{
    plain(chroma_mode_flag(left), chroma_mode_flag(above))
}

/// The increment of transform_size_8x8_flag's context (clause 9.3.3.1.1.10).
#[tactic(auto, unfolding(spec_contexts::specs::Increments::inc_transform))]
pub fn inc_transform(left: Option<&MbRecord>, above: Option<&MbRecord>) -> u8
    ensures value { result ≡ inc_transform_of (pointed left.entry) (pointed above.entry) }
    ensures most { result ≤ 2 }
{
    plain(transform_flag(left), transform_flag(above))
}

/// The increment of mb_qp_delta's first context (clause 9.3.3.1.1.5). `last_delta`: the macroblock before in the slice
/// has a written difference that isn't 0.
pub fn inc_qp_delta(last_delta: bool) -> u8
    ensures value { result ≡ inc_qp_delta_of last_delta }
    ensures most { result ≤ 1 }
{
    weight(last_delta)
}

/// The increment of the context of coded_block_pattern's bin for 8x8 luma block `block`, 0 to 3, of `mb`, of which the
/// bits of the blocks before are used (clause 9.3.3.1.1.4).
#[tactic(auto, unfolding(spec_contexts::specs::Increments::inc_luma_cbp))]
pub fn inc_luma_cbp(
    mb: &MbRecord,
    left: Option<&MbRecord>,
    above: Option<&MbRecord>,
    block: u8,
) -> u8
    requires { block ≤ 3 }
    ensures value { result ≡ inc_luma_cbp_of mb.now (pointed left.entry) (pointed above.entry) block }
    ensures most { result ≤ 3 }
{
    doubled(
        luma_cbp_flag(left_of2(mb, left, block), left_block2(block)),
        luma_cbp_flag(above_of2(mb, above, block), above_block2(block)),
    )
}

/// The increment of the contexts of coded_block_pattern's chroma bins, the first or the second (clause 9.3.3.1.1.4).
/// The second bin's contexts are four others.
#[tactic(auto, unfolding(spec_contexts::specs::Increments::inc_chroma_cbp))]
pub fn inc_chroma_cbp(left: Option<&MbRecord>, above: Option<&MbRecord>, second: bool) -> u8
    ensures value { result ≡ inc_chroma_cbp_of (pointed left.entry) (pointed above.entry) second }
    ensures most { result ≤ 3 }
{
    doubled(
        chroma_cbp_flag(left, second),
        chroma_cbp_flag(above, second),
    )
}
