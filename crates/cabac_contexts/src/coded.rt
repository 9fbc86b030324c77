// The context of coded_block_flag (ITU-T H.264, clause 9.3.3.1.1.9).
ghost use Rattle.std.specs.Prelude.{◌≡◌, ◌≤◌, ◌+◌, ◌*◌, slice_range};
ghost use Rattle.spec_contexts.specs.Near.{pointed};
ghost use Rattle.spec_contexts.specs.Increments.{some_level, luma_levels, coded_flag, luma_dc_coded as luma_dc_coded_of, luma_coded as luma_coded_of, chroma_dc_coded as chroma_dc_coded_of, chroma_ac_coded as chroma_ac_coded_of, inc_luma as inc_luma_of, inc_luma_dc as inc_luma_dc_of, inc_chroma_dc as inc_chroma_dc_of, inc_chroma_ac as inc_chroma_ac_of, inc_coded as inc_coded_of};

use crate::increments::{doubled, has_bit};
use crate::near::{
    above_block2, above_block4, above_of2, above_of4, left_block2, left_block4, left_of2, left_of4,
};
use enc_tables::{CHROMA_DC_BLOCK, INTRA16_AC_BLOCK, INTRA16_DC_BLOCK, LUMA4_BLOCK, MbRecord};

#[inline]
fn has_level(levels: &[i16]) -> bool
    ensures { result ≡ some_level levels.now }
{
    levels.iter().any(|level| *level != 0)
}

// Whether a block of a macroblock that is neither I_PCM nor skipped has a level that isn't 0; a block that isn't
// written has none.

fn luma_dc_coded(mb: &MbRecord) -> bool
    ensures { result ≡ luma_dc_coded_of mb.now }
{
    mb.kind.is_16x16() && has_level(&mb.luma_dc)
}

// With 8x8 transforms the bit of the 8x8 block alone counts.
fn luma_coded(mb: &MbRecord, block: u8) -> bool
    requires { block ≤ 15 }
    ensures { result ≡ luma_coded_of block mb.now }
{
    has_bit(mb.luma_cbp, block / 4) && (mb.transform8 || has_luma_level(mb, block))
}

fn has_luma_level(mb: &MbRecord, block: u8) -> bool
    requires { block ≤ 15 }
    ensures { result ≡ some_level (luma_levels mb.now block) }
{
    let start = 16 * block as usize;
    has_level(&mb.luma[start..start + 16])
}

fn chroma_dc_coded(mb: &MbRecord, component: u8) -> bool
    requires { component ≤ 1 }
    ensures { result ≡ chroma_dc_coded_of component mb.now }
{
    mb.chroma_cbp != 0 && has_chroma_dc_level(mb, component)
}

fn chroma_ac_coded(mb: &MbRecord, component: u8, block: u8) -> bool
    requires component { component ≤ 1 }
    requires block { block ≤ 3 }
    ensures { result ≡ chroma_ac_coded_of component block mb.now }
{
    mb.chroma_cbp == 2 && has_chroma_ac_level(mb, component, block)
}

fn has_chroma_dc_level(mb: &MbRecord, component: u8) -> bool
    requires { component ≤ 1 }
    ensures { result ≡ some_level (slice_range mb.now.chroma_dc (4 * component) (4 * component + 4)) }
{
    let start = 4 * component as usize;
    has_level(&mb.chroma_dc[start..start + 4])
}

fn has_chroma_ac_level(mb: &MbRecord, component: u8, block: u8) -> bool
    requires component { component ≤ 1 }
    requires block { block ≤ 3 }
    ensures { result ≡ some_level (slice_range mb.now.chroma_ac (60 * component + 15 * block) (60 * component + 15 * block + 15)) }
{
    let start = 60 * component as usize + 15 * block as usize;
    has_level(&mb.chroma_ac[start..start + 15])
}

// The flags of the neighbours of a block of `mb`.

fn luma_dc_flag(mb: &MbRecord, near: Option<&MbRecord>) -> bool
    ensures { result ≡ coded_flag mb.now luma_dc_coded_of (pointed near.entry) }
{
    match near {
        Some(n) => n.kind.is_pcm() || (!n.kind.is_skipped() && luma_dc_coded(n)),
        None => mb.kind.is_intra(),
    }
}

fn luma_flag(mb: &MbRecord, near: Option<&MbRecord>, block: u8) -> bool
    requires { block ≤ 15 }
    ensures { result ≡ coded_flag mb.now (luma_coded_of block) (pointed near.entry) }
{
    match near {
        Some(n) => n.kind.is_pcm() || (!n.kind.is_skipped() && luma_coded(n, block)),
        None => mb.kind.is_intra(),
    }
}

fn chroma_dc_flag(mb: &MbRecord, near: Option<&MbRecord>, component: u8) -> bool
    requires { component ≤ 1 }
    ensures { result ≡ coded_flag mb.now (chroma_dc_coded_of component) (pointed near.entry) }
{
    match near {
        Some(n) => n.kind.is_pcm() || (!n.kind.is_skipped() && chroma_dc_coded(n, component)),
        None => mb.kind.is_intra(),
    }
}

fn chroma_ac_flag(mb: &MbRecord, near: Option<&MbRecord>, component: u8, block: u8) -> bool
    requires component { component ≤ 1 }
    requires block { block ≤ 3 }
    ensures { result ≡ coded_flag mb.now (chroma_ac_coded_of component block) (pointed near.entry) }
{
    match near {
        Some(n) => n.kind.is_pcm()
            || (!n.kind.is_skipped() && chroma_ac_coded(n, component, block)),
        None => mb.kind.is_intra(),
    }
}

fn inc_luma_dc(mb: &MbRecord, left: Option<&MbRecord>, above: Option<&MbRecord>) -> u8
    ensures value { result ≡ inc_luma_dc_of mb.now (pointed left.entry) (pointed above.entry) }
    ensures most { result ≤ 3 }
{
    doubled(luma_dc_flag(mb, left), luma_dc_flag(mb, above))
}

fn inc_luma(mb: &MbRecord, left: Option<&MbRecord>, above: Option<&MbRecord>, block: u8) -> u8
    requires { block ≤ 15 }
    ensures value { result ≡ inc_luma_of mb.now (pointed left.entry) (pointed above.entry) block }
    ensures most { result ≤ 3 }
{
    doubled(
        luma_flag(mb, left_of4(mb, left, block), left_block4(block)),
        luma_flag(mb, above_of4(mb, above, block), above_block4(block)),
    )
}

fn inc_chroma_dc(
    mb: &MbRecord,
    left: Option<&MbRecord>,
    above: Option<&MbRecord>,
    component: u8,
) -> u8
    requires { component ≤ 1 }
    ensures value { result ≡ inc_chroma_dc_of mb.now (pointed left.entry) (pointed above.entry) component }
    ensures most { result ≤ 3 }
{
    doubled(
        chroma_dc_flag(mb, left, component),
        chroma_dc_flag(mb, above, component),
    )
}

fn inc_chroma_ac(
    mb: &MbRecord,
    left: Option<&MbRecord>,
    above: Option<&MbRecord>,
    component: u8,
    block: u8,
) -> u8
    requires component { component ≤ 1 }
    requires block { block ≤ 3 }
    ensures value { result ≡ inc_chroma_ac_of mb.now (pointed left.entry) (pointed above.entry) component block }
    ensures most { result ≤ 3 }
{
    doubled(
        chroma_ac_flag(mb, left_of2(mb, left, block), component, left_block2(block)),
        chroma_ac_flag(
            mb,
            above_of2(mb, above, block),
            component,
            above_block2(block),
        ),
    )
}

/// The increment of coded_block_flag's context, for a block of `mb`; `left` and `above` are None where that macroblock
/// isn't available.
///
/// Categories are those of blocks below 8x8 (`INTRA16_DC_BLOCK` and so on). `component` is 1 for Cr, else 0. `block` is
/// a 4x4 luma block, 0 to 15, for the categories of 4x4 luma blocks, a chroma block, 0 to 3, for AC levels of chroma,
/// and 0 for DC levels. Of `mb` the blocks before this one are looked at.
#[tactic(auto, unfolding(spec_contexts::specs::Increments::inc_coded))]
pub fn inc_coded(
    mb: &MbRecord,
    left: Option<&MbRecord>,
    above: Option<&MbRecord>,
    category: u8,
    component: u8,
    block: u8,
) -> u8
    requires category { category ≤ 4 }
    requires component { component ≤ 1 }
    requires block { block ≤ 15 }
    requires chroma_block { category ≡ 4 → block ≤ 3 }
    ensures value { result ≡ inc_coded_of mb.now (pointed left.entry) (pointed above.entry) category component block }
    ensures most { result ≤ 3 }
{
    match category {
        INTRA16_DC_BLOCK => inc_luma_dc(mb, left, above),
        INTRA16_AC_BLOCK | LUMA4_BLOCK => inc_luma(mb, left, above, block),
        CHROMA_DC_BLOCK => inc_chroma_dc(mb, left, above, component),
        _ => inc_chroma_ac(mb, left, above, component, block),
    }
}
