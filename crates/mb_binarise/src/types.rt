//! mb_type in P and B slices.

ghost use Rattle.std.specs.Prelude.{◌≡◌, ℕ, ◌+◌, ◌<◌, ◌≤◌, ◌++◌, [], ◌∷◌, Bool, true, false, cond, IsTrue};
ghost use Rattle.arrayvec.specs.ArrayVec.{array_vec_len};
ghost use Rattle.enc_tables.specs.declared.records.SliceKind.{SliceKind};
ghost use Rattle.spec_syntax.specs.Syntax.{at};
ghost use Rattle.spec_syntax.specs.Numbers.{ones_string};
ghost use Rattle.spec_syntax.specs.Elements.{IntraType, IsIntraType, intra_type_of};
ghost use Rattle.enc_tables.specs.Kinds.{is_intra};
ghost use Rattle.spec_syntax.specs.Inter.{occurs_in, suffix_string, PType, p_type_of, p_type_string, BType, b_type_of, b_type_string};

use crate::inter::block_use;
use crate::push::{one, push_ones};
use arrayvec::ArrayVec;
use enc_tables::{
    MB_TYPE_B_OFFSET, MB_TYPE_B_SUFFIX_OFFSET, MB_TYPE_P_OFFSET, MB_TYPE_P_SUFFIX_OFFSET, MbKind,
    MbRecord, TERMINATE,
};
use spec_syntax::{Bin, ListUse};

// ---- an intra type behind the prefix, whose contexts begin at `from`

#[tactic(auto, unfolding(spec_syntax::specs::Inter::suffix_string))]
fn push_not_whole(bins: &mut ArrayVec<Bin, 48>, from: u16)
    requires from { from ≤ 32 }
    requires room { array_vec_len bins.old ≤ 6 }
    ensures { bins.new.items ≡ bins.old.items ++ suffix_string from IntraType.NxN }
{
    bins.push(Bin {
        ctx: from,
        bit: false,
    });
}

#[tactic(auto, using(crate::proofs::Strings::append_two), unfolding(spec_syntax::specs::Inter::suffix_string))]
fn push_pcm(bins: &mut ArrayVec<Bin, 48>, from: u16)
    requires from { from ≤ 32 }
    requires room { array_vec_len bins.old ≤ 6 }
    ensures { bins.new.items ≡ bins.old.items ++ suffix_string from IntraType.Pcm }
{
    bins.push(Bin {
        ctx: from,
        bit: true,
    });
    bins.push(Bin {
        ctx: TERMINATE,
        bit: true,
    });
}

#[tactic(auto, using(crate::proofs::Strings::suffix_whole))]
fn push_whole(bins: &mut ArrayVec<Bin, 48>, from: u16, mode: u8, chroma: u8, ac: bool)
    requires from { from ≤ 32 }
    requires room { array_vec_len bins.old ≤ 6 }
    requires mode { mode < 4 }
    requires chroma { chroma < 3 }
    ensures { bins.new.items ≡ bins.old.items ++ suffix_string from (IntraType.Whole mode chroma ac) }
{
    let high = mode / 2 == 1;
    let low = mode % 2 == 1;
    bins.push(Bin {
        ctx: from,
        bit: true,
    });
    bins.push(Bin {
        ctx: TERMINATE,
        bit: false,
    });
    bins.push(Bin {
        ctx: from + 1,
        bit: ac,
    });
    push_chroma(bins, from + 2, chroma);
    bins.push(Bin {
        ctx: from + 3,
        bit: high,
    });
    bins.push(Bin {
        ctx: from + 3,
        bit: low,
    });
}

// 0, or 1 and a bit.
fn push_chroma(bins: &mut ArrayVec<Bin, 48>, ctx: u16, chroma: u8)
    requires room { array_vec_len bins.old ≤ 9 }
    requires chroma { chroma < 3 }
    ensures items { bins.new.items ≡ bins.old.items ++ ones_string ctx 2 chroma }
    ensures len { array_vec_len bins.new ≤ array_vec_len bins.old + 2 }
{
    push_ones(bins, ctx, 2, chroma as u16);
}

fn push_suffix(bins: &mut ArrayVec<Bin, 48>, from: u16, mb: &MbRecord)
    requires from { from ≤ 32 }
    requires room { array_vec_len bins.old ≤ 6 }
    requires intra { IsTrue (is_intra mb.now.kind) }
    requires range { IsIntraType (intra_type_of mb.now) }
    ensures { bins.new.items ≡ bins.old.items ++ suffix_string from (intra_type_of mb.now) }
{
    match mb.kind {
        MbKind::Intra16 => push_whole(bins, from, mb.modes[0], mb.chroma_cbp, mb.luma_cbp != 0),
        MbKind::Pcm => push_pcm(bins, from),
        _ => push_not_whole(bins, from),
    }
}

// ---- P

// Three bins; the last one's context is by the second one.
fn three(second: bool, third: bool) -> ArrayVec<Bin, 48>
    ensures { result.items ≡ at 14 false ∷ at 15 second ∷ at (cond second 17 16) third ∷ [] }
{
    let last: u16 = if second {
        MB_TYPE_P_OFFSET + 3
    } else {
        MB_TYPE_P_OFFSET + 2
    };
    let mut bins = ArrayVec::new();
    bins.push(Bin {
        ctx: MB_TYPE_P_OFFSET,
        bit: false,
    });
    bins.push(Bin {
        ctx: MB_TYPE_P_OFFSET + 1,
        bit: second,
    });
    bins.push(Bin {
        ctx: last,
        bit: third,
    });
    bins
}

#[tactic(auto, using(crate::proofs::Strings::p_intra))]
fn intra_in_p(mb: &MbRecord) -> ArrayVec<Bin, 48>
    requires intra { IsTrue (is_intra mb.now.kind) }
    requires range { IsIntraType (intra_type_of mb.now) }
    ensures { result.items ≡ p_type_string (PType.Intra (intra_type_of mb.now)) }
{
    let mut bins = ArrayVec::new();
    bins.push(Bin {
        ctx: MB_TYPE_P_OFFSET,
        bit: true,
    });
    push_suffix(&mut bins, MB_TYPE_P_SUFFIX_OFFSET, mb);
    bins
}

/// mb_type in a P slice (table 7-13).
#[tactic(auto, unfolding(spec_syntax::specs::Inter::p_type_string))]
pub(crate) fn type_in_p(mb: &MbRecord) -> ArrayVec<Bin, 48>
    requires kind { IsTrue (occurs_in SliceKind.P mb.now.kind) }
    requires range { IsIntraType (intra_type_of mb.now) }
    ensures { result.items ≡ p_type_string (p_type_of mb.now) }
{
    match mb.kind {
        MbKind::P16 => three(false, false),
        MbKind::P16x8 => three(true, true),
        MbKind::P8x16 => three(true, false),
        MbKind::P8x8 => three(false, true),
        _ => intra_in_p(mb),
    }
}

// ---- B

// Two ones and four bits more.
fn six(inc: u8, third: bool, fourth: bool, fifth: bool, sixth: bool) -> ArrayVec<Bin, 48>
    ensures items { result.items ≡ at (27 + inc) true ∷ at 30 true ∷ at 31 third ∷ at 32 fourth ∷ at 32 fifth ∷ at 32 sixth ∷ [] }
    ensures len { array_vec_len result ≡ 6 }
{
    let mut bins = ArrayVec::new();
    bins.push(Bin {
        ctx: MB_TYPE_B_OFFSET + inc as u16,
        bit: true,
    });
    bins.push(Bin {
        ctx: MB_TYPE_B_OFFSET + 3,
        bit: true,
    });
    bins.push(Bin {
        ctx: MB_TYPE_B_OFFSET + 4,
        bit: third,
    });
    bins.push(Bin {
        ctx: MB_TYPE_B_OFFSET + 5,
        bit: fourth,
    });
    bins.push(Bin {
        ctx: MB_TYPE_B_OFFSET + 5,
        bit: fifth,
    });
    bins.push(Bin {
        ctx: MB_TYPE_B_OFFSET + 5,
        bit: sixth,
    });
    bins
}

// Three ones and four bits more.
fn seven(inc: u8, fourth: bool, fifth: bool, sixth: bool, seventh: bool) -> ArrayVec<Bin, 48>
    ensures { result.items ≡ at (27 + inc) true ∷ at 30 true ∷ at 31 true ∷ at 32 fourth ∷ at 32 fifth ∷ at 32 sixth ∷ at 32 seventh ∷ [] }
{
    let mut bins = six(inc, true, fourth, fifth, sixth);
    bins.push(Bin {
        ctx: MB_TYPE_B_OFFSET + 5,
        bit: seventh,
    });
    bins
}

// One list: 100 or 101.
fn short(inc: u8, last: bool) -> ArrayVec<Bin, 48>
    ensures { result.items ≡ at (27 + inc) true ∷ at 30 false ∷ at 32 last ∷ [] }
{
    let mut bins = ArrayVec::new();
    bins.push(Bin {
        ctx: MB_TYPE_B_OFFSET + inc as u16,
        bit: true,
    });
    bins.push(Bin {
        ctx: MB_TYPE_B_OFFSET + 3,
        bit: false,
    });
    bins.push(Bin {
        ctx: MB_TYPE_B_OFFSET + 5,
        bit: last,
    });
    bins
}

#[tactic(auto, unfolding(spec_syntax::specs::Inter::b_type_string, spec_syntax::specs::Syntax::flag_string))]
fn direct(inc: u8) -> ArrayVec<Bin, 48>
    ensures { result.items ≡ b_type_string inc BType.Direct }
{
    one(MB_TYPE_B_OFFSET + inc as u16, false)
}

#[tactic(auto, unfolding(spec_syntax::specs::Inter::b_type_string))]
fn single(inc: u8, lists: ListUse) -> ArrayVec<Bin, 48>
    ensures { result.items ≡ b_type_string inc (BType.One lists) }
{
    match lists {
        ListUse::L0 => short(inc, false),
        ListUse::L1 => short(inc, true),
        ListUse::Bi => six(inc, false, false, false, false),
    }
}

#[tactic(auto, unfolding(spec_syntax::specs::Inter::b_type_string))]
fn rows(inc: u8, upper: ListUse, lower: ListUse) -> ArrayVec<Bin, 48>
    ensures { result.items ≡ b_type_string inc (BType.Rows upper lower) }
{
    match (upper, lower) {
        (ListUse::L0, ListUse::L0) => six(inc, false, false, false, true),
        (ListUse::L1, ListUse::L1) => six(inc, false, false, true, true),
        (ListUse::L0, ListUse::L1) => six(inc, false, true, false, true),
        (ListUse::L1, ListUse::L0) => six(inc, false, true, true, true),
        (ListUse::L0, ListUse::Bi) => seven(inc, false, false, false, false),
        (ListUse::L1, ListUse::Bi) => seven(inc, false, false, true, false),
        (ListUse::Bi, ListUse::L0) => seven(inc, false, true, false, false),
        (ListUse::Bi, ListUse::L1) => seven(inc, false, true, true, false),
        (ListUse::Bi, ListUse::Bi) => seven(inc, true, false, false, false),
    }
}

#[tactic(auto, unfolding(spec_syntax::specs::Inter::b_type_string))]
fn columns(inc: u8, left: ListUse, right: ListUse) -> ArrayVec<Bin, 48>
    ensures { result.items ≡ b_type_string inc (BType.Columns left right) }
{
    match (left, right) {
        (ListUse::L0, ListUse::L0) => six(inc, false, false, true, false),
        (ListUse::L1, ListUse::L1) => six(inc, false, true, false, false),
        (ListUse::L0, ListUse::L1) => six(inc, false, true, true, false),
        (ListUse::L1, ListUse::L0) => six(inc, true, true, true, false),
        (ListUse::L0, ListUse::Bi) => seven(inc, false, false, false, true),
        (ListUse::L1, ListUse::Bi) => seven(inc, false, false, true, true),
        (ListUse::Bi, ListUse::L0) => seven(inc, false, true, false, true),
        (ListUse::Bi, ListUse::L1) => seven(inc, false, true, true, true),
        (ListUse::Bi, ListUse::Bi) => seven(inc, true, false, false, true),
    }
}

#[tactic(auto, unfolding(spec_syntax::specs::Inter::b_type_string))]
fn four(inc: u8) -> ArrayVec<Bin, 48>
    ensures { result.items ≡ b_type_string inc BType.Four }
{
    six(inc, true, true, true, true)
}

#[tactic(auto, using(crate::proofs::Strings::b_intra))]
fn intra_in_b(inc: u8, mb: &MbRecord) -> ArrayVec<Bin, 48>
    requires intra { IsTrue (is_intra mb.now.kind) }
    requires range { IsIntraType (intra_type_of mb.now) }
    ensures { result.items ≡ b_type_string inc (BType.Intra (intra_type_of mb.now)) }
{
    let mut bins = six(inc, true, true, false, true);
    push_suffix(&mut bins, MB_TYPE_B_SUFFIX_OFFSET, mb);
    bins
}

/// mb_type in a B slice (table 7-14).
pub(crate) fn type_in_b(inc: u8, mb: &MbRecord) -> ArrayVec<Bin, 48>
    requires kind { IsTrue (occurs_in SliceKind.B mb.now.kind) }
    requires range { IsIntraType (intra_type_of mb.now) }
    ensures { result.items ≡ b_type_string inc (b_type_of mb.now) }
{
    match mb.kind {
        MbKind::BDirect => direct(inc),
        MbKind::B16 => single(inc, block_use(mb, 0)),
        MbKind::B16x8 => rows(inc, block_use(mb, 0), block_use(mb, 2)),
        MbKind::B8x16 => columns(inc, block_use(mb, 0), block_use(mb, 1)),
        MbKind::B8x8 => four(inc),
        _ => intra_in_b(inc, mb),
    }
}
