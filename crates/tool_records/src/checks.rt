// Whether the syntax can give a macroblock where it is (clauses 7.3.5 and 7.4.5).
ghost use Rattle.std.specs.Prelude.{◌≡◌, ◌≤◌, ◌<◌, ◌+◌, ◌*◌, ◌/◌, ℕ, true, false, length, get_or, pos, slice_range, IsTrue, nat_abs};
ghost use Rattle.enc_tables.specs.Kinds.{is_16x16 as whole, is_intra as intra, is_skipped as skipped};
ghost use Rattle.spec_contexts.specs.Near.{pointed};
ghost use Rattle.spec_contexts.specs.Increments.{bit_of, some_level};
ghost use Rattle.spec_syntax.specs.Blocks.{nonzero};
ghost use Rattle.spec_macroblock.specs.Records.{IsRecord, AreModes, NearModes, WholeFits, AreLevels, level_at, modes_used};
ghost use Rattle.mb_syntax.specs.Around.{near_of};

use crate::inter::{differences_fit, differences_spread, is_in, parts_fit, transform_fits};
use cabac_contexts::has_bit;
use enc_tables::MbRecord;
use mb_syntax::Around;

fn are_modes(modes: &[u8; 16]) -> bool
    ensures { IsTrue result → AreModes modes.now }
{
    for k in 0..16 {
        if modes[k] > 8 {
            return false;
        }
    }
    true
}

fn near_modes(near: Option<&MbRecord>) -> bool
    ensures { IsTrue result → NearModes (pointed near.entry) }
{
    match near {
        None => true,
        Some(mb) => are_modes(&mb.modes),
    }
}

fn used(mb: &MbRecord) -> usize
    ensures { result ≡ modes_used mb.now }
{
    if mb.kind.is_16x16() {
        return 1;
    }
    if !mb.kind.is_nxn() {
        return 0;
    }
    if mb.transform8 { 4 } else { 16 }
}

// Whether the modes from a place on are 0.
fn modes_blank(modes: &[u8; 16], from: usize) -> bool
    ensures { IsTrue result → (i : ℕ) → from ≤ i → get_or modes.now i 0 ≡ 0 }
{
    for k in from..16 {
        if modes[k] > 0 {
            return false;
        }
    }
    true
}

fn whole_fits(mb: &MbRecord) -> bool
    ensures { IsTrue result → WholeFits (whole mb.now.kind) mb.now }
{
    if !mb.kind.is_16x16() {
        return true;
    }
    if mb.modes[0] > 3 {
        return false;
    }
    mb.luma_cbp == 0 || mb.luma_cbp == 15
}

fn is_level(levels: &[i16], k: usize) -> bool
    requires { k < length levels.now }
    ensures { result ≡ nonzero (level_at levels.now k) }
{
    levels[k] > 0 || levels[k] < 0
}

fn is_large(levels: &[i16], k: usize) -> bool
    requires { k < length levels.now }
    ensures { result ≡ false → nat_abs (level_at levels.now k) ≤ 8191 }
{
    levels[k].unsigned_abs() > 8191
}

fn are_levels(levels: &[i16]) -> bool
    ensures { IsTrue result → AreLevels levels.now }
{
    for k in 0..levels.len() {
        if is_large(levels, k) {
            return false;
        }
    }
    true
}

fn are_zero(levels: &[i16]) -> bool
    ensures { IsTrue result → (i : ℕ) → level_at levels.now i ≡ pos 0 }
{
    for k in 0..levels.len() {
        if is_level(levels, k) {
            return false;
        }
    }
    true
}

// Levels that aren't present are 0.
fn zero_unless(present: bool, levels: &[i16]) -> bool
    ensures { IsTrue result → present ≡ false → (i : ℕ) → level_at levels.now i ≡ pos 0 }
{
    if present {
        return true;
    }
    are_zero(levels)
}

fn luma_blank(mb: &MbRecord) -> bool
    ensures { IsTrue result → (i : ℕ) → bit_of mb.now.luma_cbp (i / 64) ≡ false → level_at mb.now.luma i ≡ pos 0 }
{
    for k in 0..256 {
        let present = has_bit(mb.luma_cbp, (k / 64) as u8);
        if !present && is_level(&mb.luma, k) {
            return false;
        }
    }
    true
}

fn has_level(levels: &[i16]) -> bool
    ensures { result ≡ some_level levels.now }
{
    levels.iter().any(|level| *level != 0)
}

fn some_in(mb: &MbRecord, block: u8) -> bool
    requires { block < 4 }
    ensures { IsTrue result → bit_of mb.now.luma_cbp block ≡ true → some_level (slice_range mb.now.luma (64 * block) (64 * block + 64)) ≡ true }
{
    if !has_bit(mb.luma_cbp, block) {
        return true;
    }
    let start = 64 * block as usize;
    has_level(&mb.luma[start..start + 64])
}

fn luma_some(mb: &MbRecord) -> bool
    ensures { IsTrue result → mb.now.transform8 ≡ true → (k : ℕ) → k < 4 → bit_of mb.now.luma_cbp k ≡ true → some_level (slice_range mb.now.luma (64 * k) (64 * k + 64)) ≡ true }
{
    if !mb.transform8 {
        return true;
    }
    for k in 0..4 {
        if !some_in(mb, k) {
            return false;
        }
    }
    true
}

fn luma_places(mb: &MbRecord) -> bool
    ensures { IsTrue result → whole mb.now.kind ≡ true → (b : ℕ) → level_at mb.now.luma (16 * b) ≡ pos 0 }
{
    if !mb.kind.is_16x16() {
        return true;
    }
    for b in 0..16 {
        if is_level(&mb.luma, 16 * b) {
            return false;
        }
    }
    true
}

// Only intra macroblocks have a chroma mode.
fn chroma_mode_fits(mb: &MbRecord) -> bool
    ensures { IsTrue result → intra mb.now.kind ≡ false → mb.now.chroma_mode ≡ 0 }
{
    mb.kind.is_intra() || mb.chroma_mode == 0
}

// Skipped macroblocks have no residual.
fn pattern_fits(mb: &MbRecord) -> bool
    ensures { IsTrue result → skipped mb.now.kind ≡ true → (mb.now.luma_cbp ≡ 0) × (mb.now.chroma_cbp ≡ 0) }
{
    if !mb.kind.is_skipped() {
        return true;
    }
    mb.luma_cbp == 0 && mb.chroma_cbp == 0
}

/// Whether this is known to be a macroblock that the syntax can give where this is around it, with the QP of the
/// macroblock before.
pub fn is_record(mb: &MbRecord, around: &Around) -> bool
    ensures { IsTrue result → IsRecord (near_of around.now mb.now) mb.now }
{
    if !is_in(around.kind, mb.kind) {
        return false;
    }
    if !transform_fits(around.t8x8, mb.kind, mb.luma_cbp != 0, mb.transform8) {
        return false;
    }
    if !parts_fit(mb, around) {
        return false;
    }
    if !differences_fit(mb) {
        return false;
    }
    if !differences_spread(mb) {
        return false;
    }
    if !chroma_mode_fits(mb) {
        return false;
    }
    if !pattern_fits(mb) {
        return false;
    }
    if !near_modes(around.left) {
        return false;
    }
    if !near_modes(around.above) {
        return false;
    }
    if !are_modes(&mb.modes) {
        return false;
    }
    if !modes_blank(&mb.modes, used(mb)) {
        return false;
    }
    if !whole_fits(mb) {
        return false;
    }
    if mb.chroma_mode > 3 || mb.luma_cbp > 15 || mb.chroma_cbp > 2 || mb.qp > 51 {
        return false;
    }
    if !zero_unless(mb.kind.is_16x16(), &mb.luma_dc) {
        return false;
    }
    if !zero_unless(mb.chroma_cbp > 0, &mb.chroma_dc) {
        return false;
    }
    if !zero_unless(mb.chroma_cbp == 2, &mb.chroma_ac) {
        return false;
    }
    if !are_levels(&mb.luma_dc) {
        return false;
    }
    if !are_levels(&mb.luma) {
        return false;
    }
    if !are_levels(&mb.chroma_dc) {
        return false;
    }
    if !are_levels(&mb.chroma_ac) {
        return false;
    }
    if !luma_blank(mb) {
        return false;
    }
    if !luma_some(mb) {
        return false;
    }
    luma_places(mb)
}
