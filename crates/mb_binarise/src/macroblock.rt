//! The elements that say what a macroblock is.

ghost use Rattle.std.specs.Prelude.{◌≡◌, ℕ, ◌+◌, ◌-◌, ◌*◌, ◌<◌, ◌≤◌, nat_abs, get_or, IsTrue};
ghost use Rattle.arrayvec.specs.ArrayVec.{array_vec_len};
ghost use Rattle.spec_syntax.specs.Syntax.{flag_string};
ghost use Rattle.spec_syntax.specs.Inter.{occurs_in, type_string};
ghost use Rattle.spec_syntax.specs.Elements.{IntraType, IsIntraType, intra_type_of, intra_type_string, mode_flag, mode_rem_string, chroma_mode_string, luma_pattern_string, inc_of, chroma_pattern_string, transform_flag, mapped, qp_delta_string, end_of_slice};
ghost use Rattle.enc_tables.specs.Kinds.{is_intra};

use crate::push::{one, push_ones};
use crate::types::{type_in_b, type_in_p};
use arrayvec::ArrayVec;
use enc_tables::{
    CHROMA_MODE_OFFSET, CHROMA_PATTERN_OFFSET, LUMA_PATTERN_OFFSET, MB_TYPE_I_OFFSET,
    MODE_FLAG_OFFSET, MODE_REM_OFFSET, MbKind, MbRecord, QP_DELTA_OFFSET, SliceKind, TERMINATE,
    TRANSFORM_OFFSET,
};
use spec_syntax::Bin;

/// end_of_slice_flag.
pub fn bins_end(last: bool) -> ArrayVec<Bin, 48>
    ensures { result.items ≡ flag_string end_of_slice last }
{
    one(TERMINATE, last)
}

/// mb_type of a macroblock that isn't skipped. Of Intra 16x16 it tells the mode, the chroma pattern and whether the
/// luma pattern isn't 0; in B, which lists each partition uses. In P `inc` isn't used.
pub fn bins_type(kind: SliceKind, inc: u8, mb: &MbRecord) -> ArrayVec<Bin, 48>
    requires kind { IsTrue (occurs_in kind mb.now.kind) }
    requires range { IsIntraType (intra_type_of mb.now) }
    ensures { result.items ≡ type_string kind inc mb.now }
{
    match kind {
        SliceKind::I => type_in_i(inc, mb),
        SliceKind::P => type_in_p(mb),
        SliceKind::B => type_in_b(inc, mb),
    }
}

// mb_type in an I slice (tables 7-11 and 9-36).
fn type_in_i(inc: u8, mb: &MbRecord) -> ArrayVec<Bin, 48>
    requires intra { IsTrue (is_intra mb.now.kind) }
    requires range { IsIntraType (intra_type_of mb.now) }
    ensures { result.items ≡ intra_type_string inc (intra_type_of mb.now) }
{
    match mb.kind {
        MbKind::Intra16 => whole(inc, mb.modes[0], mb.chroma_cbp, mb.luma_cbp != 0),
        MbKind::Pcm => pcm(inc),
        _ => not_whole(inc),
    }
}

// I_NxN.
#[tactic(auto, unfolding(spec_syntax::specs::Elements::intra_type_string, spec_syntax::specs::Syntax::flag_string))]
fn not_whole(inc: u8) -> ArrayVec<Bin, 48>
    ensures { result.items ≡ intra_type_string inc IntraType.NxN }
{
    one(MB_TYPE_I_OFFSET + inc as u16, false)
}

#[tactic(auto, unfolding(spec_syntax::specs::Elements::intra_type_string, spec_syntax::specs::Syntax::flag_string))]
fn pcm(inc: u8) -> ArrayVec<Bin, 48>
    ensures { result.items ≡ intra_type_string inc IntraType.Pcm }
{
    let mut bins = one(MB_TYPE_I_OFFSET + inc as u16, true);
    bins.push(Bin {
        ctx: TERMINATE,
        bit: true,
    });
    bins
}

// Intra 16x16.
#[tactic(auto, using(crate::proofs::Strings::whole_without, crate::proofs::Strings::whole_with), unfolding(spec_syntax::specs::Syntax::flag_string))]
fn whole(inc: u8, mode: u8, chroma: u8, ac: bool) -> ArrayVec<Bin, 48>
    requires mode { mode < 4 }
    requires chroma { chroma < 3 }
    ensures { result.items ≡ intra_type_string inc (IntraType.Whole mode chroma ac) }
{
    let high = mode / 2 == 1;
    let low = mode % 2 == 1;
    let mut bins = one(MB_TYPE_I_OFFSET + inc as u16, true);
    bins.push(Bin {
        ctx: TERMINATE,
        bit: false,
    });
    bins.push(Bin { ctx: 6, bit: ac });
    if chroma == 0 {
        bins.push(Bin { ctx: 7, bit: false });
    } else {
        bins.push(Bin { ctx: 7, bit: true });
        bins.push(Bin {
            ctx: 8,
            bit: chroma == 2,
        });
    }
    bins.push(Bin { ctx: 9, bit: high });
    bins.push(Bin { ctx: 10, bit: low });
    bins
}

/// intra_chroma_pred_mode: 0 mean, 1 left, 2 above, 3 plane.
#[tactic(auto, using(crate::proofs::Strings::chroma_mode_zero, crate::proofs::Strings::chroma_mode_more), unfolding(spec_syntax::specs::Syntax::flag_string))]
pub fn bins_chroma_mode(inc: u8, mode: u8) -> ArrayVec<Bin, 48>
    requires { mode ≤ 3 }
    ensures { result.items ≡ chroma_mode_string inc mode }
{
    let mut bins = one(CHROMA_MODE_OFFSET + inc as u16, mode > 0);
    if mode > 0 {
        push_ones(&mut bins, CHROMA_MODE_OFFSET + 3, 2, mode as u16 - 1);
    }
    bins
}

/// prev_intra4x4_pred_mode_flag or prev_intra8x8_pred_mode_flag: whether the mode is the predicted one.
pub fn bins_mode_flag(flag: bool) -> ArrayVec<Bin, 48>
    ensures { result.items ≡ flag_string mode_flag flag }
{
    one(MODE_FLAG_OFFSET, flag)
}

/// rem_intra4x4_pred_mode or rem_intra8x8_pred_mode: the mode among those that aren't the predicted one.
#[tactic(auto, unfolding(spec_syntax::specs::Elements::mode_rem_string, spec_syntax::specs::Syntax::flag_string))]
pub fn bins_mode_rem(rem: u8) -> ArrayVec<Bin, 48>
    requires { rem ≤ 7 }
    ensures { result.items ≡ mode_rem_string rem }
{
    let upper = rem / 2;
    let mut bins = one(MODE_REM_OFFSET, rem % 2 == 1);
    bins.push(Bin {
        ctx: MODE_REM_OFFSET,
        bit: upper % 2 == 1,
    });
    bins.push(Bin {
        ctx: MODE_REM_OFFSET,
        bit: upper / 2 % 2 == 1,
    });
    bins
}

/// The luma part of coded_block_pattern: bit k of `cbp` is that of 8x8 block k, and `incs` has the increment of each.
#[tactic(auto, unfolding(spec_syntax::specs::Elements::luma_pattern_string, spec_syntax::specs::Syntax::flag_string))]
pub fn bins_luma_cbp(incs: [u8; 4], cbp: u8) -> ArrayVec<Bin, 48>
    requires { cbp ≤ 15 }
    ensures { result.items ≡ luma_pattern_string (inc_of incs) cbp }
{
    let half = cbp / 2;
    let quarter = half / 2;
    let mut bins = one(LUMA_PATTERN_OFFSET + incs[0] as u16, cbp % 2 == 1);
    bins.push(Bin {
        ctx: LUMA_PATTERN_OFFSET + incs[1] as u16,
        bit: half % 2 == 1,
    });
    bins.push(Bin {
        ctx: LUMA_PATTERN_OFFSET + incs[2] as u16,
        bit: quarter % 2 == 1,
    });
    bins.push(Bin {
        ctx: LUMA_PATTERN_OFFSET + incs[3] as u16,
        bit: quarter / 2 % 2 == 1,
    });
    bins
}

/// The chroma part of coded_block_pattern: 0 nothing, 1 DC levels alone, 2 AC levels too. `incs` has the increments of
/// the first and of the second bin.
#[tactic(auto, using(crate::proofs::Strings::chroma_pattern_zero, crate::proofs::Strings::chroma_pattern_more), unfolding(spec_syntax::specs::Syntax::flag_string))]
pub fn bins_chroma_cbp(incs: [u8; 2], cbp: u8) -> ArrayVec<Bin, 48>
    requires { cbp ≤ 2 }
    ensures { result.items ≡ chroma_pattern_string (get_or incs 0 0) (get_or incs 1 0) cbp }
{
    let mut bins = one(CHROMA_PATTERN_OFFSET + incs[0] as u16, cbp > 0);
    if cbp > 0 {
        bins.push(Bin {
            ctx: CHROMA_PATTERN_OFFSET + 4 + incs[1] as u16,
            bit: cbp > 1,
        });
    }
    bins
}

/// transform_size_8x8_flag.
pub fn bins_transform(inc: u8, flag: bool) -> ArrayVec<Bin, 48>
    ensures { result.items ≡ flag_string (transform_flag inc) flag }
{
    one(TRANSFORM_OFFSET + inc as u16, flag)
}

// A difference as a number from 0 on: the positive ones odd, the others even (clause 9.1.1).
fn mapped_delta(delta: i8) -> u16
    requires { nat_abs delta ≤ 4 }
    ensures value { result ≡ mapped delta }
    ensures most { result ≤ 8 }
{
    let size = delta.unsigned_abs() as u16;
    if delta > 0 { 2 * size - 1 } else { 2 * size }
}

/// mb_qp_delta, from −4 to 4.
#[tactic(auto, using(crate::proofs::Strings::delta_zero, crate::proofs::Strings::delta_one, crate::proofs::Strings::delta_more), unfolding(spec_syntax::specs::Syntax::flag_string))]
pub fn bins_qp_delta(inc: u8, delta: i8) -> ArrayVec<Bin, 48>
    requires { nat_abs delta ≤ 4 }
    ensures { result.items ≡ qp_delta_string inc delta }
{
    let value = mapped_delta(delta);
    if value == 0 {
        return one(QP_DELTA_OFFSET + inc as u16, false);
    }
    let mut bins = one(QP_DELTA_OFFSET + inc as u16, true);
    bins.push(Bin {
        ctx: 62,
        bit: value > 1,
    });
    if value > 1 {
        push_ones(&mut bins, 63, 8, value - 2);
    }
    bins
}
