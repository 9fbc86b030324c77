//! The elements that P and B slices add.

ghost use Rattle.std.specs.Prelude.{◌≡◌, ℕ, ◌+◌, ◌-◌, ◌*◌, ◌<◌, ◌≤◌, ◌++◌, [], cond, nat_lt, nat_abs, get_or, pos, IsTrue, ◌||◌};
ghost use Rattle.arrayvec.specs.ArrayVec.{array_vec_len};
ghost use Rattle.enc_tables.specs.declared.records.SliceKind.{SliceKind};
ghost use Rattle.spec_syntax.specs.Syntax.{at, flag_string};
ghost use Rattle.spec_syntax.specs.Numbers.{prefix_string, golomb_string};
ghost use Rattle.spec_syntax.specs.Inter.{skip_at, has_inter, first_used, second_used, use_of, block_use, sub_string, sub_type_string, sub_type_p, ref_index_string, mvd_from, mvd_at, mvd_string, sign_string};
ghost use Rattle.enc_tables.specs.Records.{is_used};

use crate::push::{one, push_golomb3, push_ones};
use arrayvec::ArrayVec;
use enc_tables::{
    BYPASS, MVD_X_OFFSET, MVD_Y_OFFSET, MbRecord, Motion, REF_IDX_OFFSET, SKIP_B_OFFSET,
    SKIP_P_OFFSET, SUB_TYPE_B_OFFSET, SUB_TYPE_P_OFFSET, SliceKind,
};
use spec_syntax::{Bin, ListUse};

fn skip_context(kind: SliceKind, inc: u8) -> u16
    ensures { result ≡ skip_at kind inc }
{
    match kind {
        SliceKind::B => SKIP_B_OFFSET + inc as u16,
        _ => SKIP_P_OFFSET + inc as u16,
    }
}

/// mb_skip_flag.
pub fn bins_skip(kind: SliceKind, inc: u8, skipped: bool) -> ArrayVec<Bin, 48>
    requires { IsTrue (has_inter kind) }
    ensures { result.items ≡ flag_string (skip_at kind inc) skipped }
{
    one(skip_context(kind, inc), skipped)
}

fn has_reference(motion: &Motion, list: usize) -> bool
    requires { list < 2 }
    ensures { result ≡ is_used (get_or motion.now.refs list (pos 0)) }
{
    motion.refs[list] >= 0
}

/// Which lists a block's motion uses.
pub(crate) fn use_of(motion: &Motion) -> ListUse
    ensures { result ≡ use_of motion.now }
{
    let first = has_reference(motion, 0);
    let second = has_reference(motion, 1);
    match (first, second) {
        (true, true) => ListUse::Bi,
        (true, false) => ListUse::L0,
        (false, _) => ListUse::L1,
    }
}

/// Which lists an 8x8 block uses.
pub(crate) fn block_use(mb: &MbRecord, block: usize) -> ListUse
    requires { block < 4 }
    ensures { result ≡ block_use mb.now block }
{
    use_of(&mb.motion[block])
}

#[tactic(auto, unfolding(spec_syntax::specs::Inter::sub_type_string, spec_syntax::specs::Syntax::flag_string))]
fn sub_type(lists: ListUse) -> ArrayVec<Bin, 48>
    ensures { result.items ≡ sub_type_string lists }
{
    let mut bins = one(SUB_TYPE_B_OFFSET, true);
    match lists {
        ListUse::L0 => {
            bins.push(Bin {
                ctx: SUB_TYPE_B_OFFSET + 1,
                bit: false,
            });
            bins.push(Bin {
                ctx: SUB_TYPE_B_OFFSET + 3,
                bit: false,
            });
        }
        ListUse::L1 => {
            bins.push(Bin {
                ctx: SUB_TYPE_B_OFFSET + 1,
                bit: false,
            });
            bins.push(Bin {
                ctx: SUB_TYPE_B_OFFSET + 3,
                bit: true,
            });
        }
        ListUse::Bi => {
            bins.push(Bin {
                ctx: SUB_TYPE_B_OFFSET + 1,
                bit: true,
            });
            bins.push(Bin {
                ctx: SUB_TYPE_B_OFFSET + 2,
                bit: false,
            });
            bins.push(Bin {
                ctx: SUB_TYPE_B_OFFSET + 3,
                bit: false,
            });
            bins.push(Bin {
                ctx: SUB_TYPE_B_OFFSET + 3,
                bit: false,
            });
        }
    }
    bins
}

/// sub_mb_type of an 8x8 block that isn't divided and has its motion written.
pub fn bins_sub_type(kind: SliceKind, motion: &Motion) -> ArrayVec<Bin, 48>
    requires kind { IsTrue (has_inter kind) }
    requires used { IsTrue (first_used motion.now || second_used motion.now) }
    ensures { result.items ≡ sub_string kind motion.now }
{
    match kind {
        SliceKind::B => sub_type(use_of(motion)),
        _ => one(SUB_TYPE_P_OFFSET, true),
    }
}

/// ref_idx_l0 or ref_idx_l1, at most 3.
#[tactic(auto, using(crate::proofs::Strings::ref_zero, crate::proofs::Strings::ref_one, crate::proofs::Strings::ref_more), unfolding(spec_syntax::specs::Syntax::flag_string))]
pub fn bins_ref(inc: u8, index: u8) -> ArrayVec<Bin, 48>
    requires { index ≤ 3 }
    ensures { result.items ≡ ref_index_string inc index }
{
    if index == 0 {
        return one(REF_IDX_OFFSET + inc as u16, false);
    }
    let mut bins = one(REF_IDX_OFFSET + inc as u16, true);
    bins.push(Bin {
        ctx: REF_IDX_OFFSET + 4,
        bit: index > 1,
    });
    if index > 1 {
        push_ones(&mut bins, REF_IDX_OFFSET + 5, 3, index as u16 - 2);
    }
    bins
}

fn mvd_context(vertical: bool, inc: u8, place: u16) -> u16
    requires { place ≤ 9 }
    ensures { result ≡ mvd_at vertical inc place }
{
    let from = if vertical { MVD_Y_OFFSET } else { MVD_X_OFFSET };
    match place {
        0 => from + inc as u16,
        _ => from + (place + 2).min(6),
    }
}

// As many ones as the size, at most 9, closed by a zero where they are fewer.
fn push_prefix(bins: &mut ArrayVec<Bin, 48>, vertical: bool, inc: u8, size: u16)
    requires { array_vec_len bins.old ≤ 0 }
    ensures items { bins.new.items ≡ bins.old.items ++ prefix_string (mvd_at vertical inc) 0 9 size }
    ensures len { array_vec_len bins.new ≤ array_vec_len bins.old + 9 }
{
    let count = size.min(9);
    let mut k = 0;
    while k < count {
        bins.push(Bin {
            ctx: mvd_context(vertical, inc, k),
            bit: true,
        });
        k += 1;
    }
    if size < 9 {
        bins.push(Bin {
            ctx: mvd_context(vertical, inc, k),
            bit: false,
        });
    }
}

// The sign of a difference that isn't 0.
fn push_sign(bins: &mut ArrayVec<Bin, 48>, value: i16)
    requires { array_vec_len bins.old ≤ 47 }
    ensures { bins.new.items ≡ bins.old.items ++ sign_string value }
{
    if value > 0 {
        bins.push(Bin {
            ctx: BYPASS,
            bit: false,
        });
    }
    if value < 0 {
        bins.push(Bin {
            ctx: BYPASS,
            bit: true,
        });
    }
}

// What is above 9.
fn push_rest(bins: &mut ArrayVec<Bin, 48>, size: u16)
    requires room { array_vec_len bins.old ≤ 9 }
    requires size { size ≤ 32768 }
    ensures items { bins.new.items ≡ bins.old.items ++ cond (nat_lt size 9) [] (golomb_string 12 3 (size - 9)) }
    ensures len { array_vec_len bins.new ≤ 47 }
{
    if size >= 9 {
        push_golomb3(bins, (size - 9) as u32);
    }
}

/// mvd_l0 or mvd_l1: the horizontal or vertical part of a vector's difference, in quarter samples.
#[tactic(auto, unfolding(spec_syntax::specs::Inter::mvd_string))]
pub fn bins_mvd(vertical: bool, inc: u8, value: i16) -> ArrayVec<Bin, 48>
    ensures { result.items ≡ mvd_string vertical inc value }
{
    let size = value.unsigned_abs();
    let mut bins = ArrayVec::new();
    push_prefix(&mut bins, vertical, inc, size);
    push_rest(&mut bins, size);
    push_sign(&mut bins, value);
    bins
}
