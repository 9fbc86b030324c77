// The contexts of reference indices and of vector differences (ITU-T H.264, clauses 9.3.3.1.1.6 and 9.3.3.1.1.7).
ghost use Rattle.std.specs.Prelude.{◌≡◌, ◌≤◌};
ghost use Rattle.spec_contexts.specs.Near.{pointed};
ghost use Rattle.spec_contexts.specs.Increments.{ref_of, mvd_of, mvd_size as mvd_size_of, mvd_class as mvd_class_of, ref_flag as ref_flag_of, inc_ref as inc_ref_of, inc_mvd as inc_mvd_of};

use crate::increments::doubled;
use crate::near::{above_block2, above_of2, left_block2, left_of2};
use enc_tables::MbRecord;

// The reference index of an 8x8 block.
fn reference(mb: &MbRecord, list: u8, block: u8) -> i8
    requires list { list ≤ 1 }
    requires block { block ≤ 3 }
    ensures { result ≡ ref_of mb.now list block }
{
    mb.motion[block as usize].refs[list as usize]
}

fn ref_flag(near: Option<&MbRecord>, list: u8, block: u8) -> bool
    requires list { list ≤ 1 }
    requires block { block ≤ 3 }
    ensures { result ≡ ref_flag_of list block (pointed near.entry) }
{
    match near {
        Some(mb) => mb.kind.has_motion() && reference(mb, list, block) > 0,
        None => false,
    }
}

// A component of the written vector difference of an 8x8 block.
fn difference(mb: &MbRecord, list: u8, block: u8, vertical: bool) -> i16
    requires list { list ≤ 1 }
    requires block { block ≤ 3 }
    ensures { result ≡ mvd_of mb.now list block vertical }
{
    let vector = mb.mvd[4 * list as usize + block as usize];
    if vertical { vector.y } else { vector.x }
}

fn mvd_size(near: Option<&MbRecord>, list: u8, block: u8, vertical: bool) -> u32
    requires list { list ≤ 1 }
    requires block { block ≤ 3 }
    ensures value { result ≡ mvd_size_of list block vertical (pointed near.entry) }
    ensures most { result ≤ 32768 }
{
    match near {
        Some(mb) if mb.kind.has_motion() && reference(mb, list, block) >= 0 => {
            difference(mb, list, block, vertical).unsigned_abs() as u32
        }
        _ => 0,
    }
}

fn mvd_class(sum: u32) -> u8
    ensures value { result ≡ mvd_class_of sum }
    ensures most { result ≤ 2 }
{
    match sum {
        0..3 => 0,
        3..=32 => 1,
        _ => 2,
    }
}

/// The increment of ref_idx's first context, in list `list`, 0 or 1, for the part of `mb` that begins at 8x8 block
/// `block`, 0 to 3 (clause 9.3.3.1.1.6).
#[tactic(auto, unfolding(spec_contexts::specs::Increments::inc_ref))]
pub fn inc_ref(
    mb: &MbRecord,
    left: Option<&MbRecord>,
    above: Option<&MbRecord>,
    list: u8,
    block: u8,
) -> u8
    requires list { list ≤ 1 }
    requires block { block ≤ 3 }
    ensures value { result ≡ inc_ref_of mb.now (pointed left.entry) (pointed above.entry) list block }
    ensures most { result ≤ 3 }
{
    doubled(
        ref_flag(left_of2(mb, left, block), list, left_block2(block)),
        ref_flag(above_of2(mb, above, block), list, above_block2(block)),
    )
}

/// The increment of the first context of a component, vertical or horizontal, of a vector difference, in list `list`, 0
/// or 1, for the part of `mb` that begins at 8x8 block `block`, 0 to 3 (clause 9.3.3.1.1.7).
#[tactic(auto, unfolding(spec_contexts::specs::Increments::inc_mvd))]
pub fn inc_mvd(
    mb: &MbRecord,
    left: Option<&MbRecord>,
    above: Option<&MbRecord>,
    list: u8,
    block: u8,
    vertical: bool,
) -> u8
    requires list { list ≤ 1 }
    requires block { block ≤ 3 }
    ensures value { result ≡ inc_mvd_of mb.now (pointed left.entry) (pointed above.entry) list block vertical }
    ensures most { result ≤ 2 }
{
    let a = mvd_size(
        left_of2(mb, left, block),
        list,
        left_block2(block),
        vertical,
    );
    let b = mvd_size(
        above_of2(mb, above, block),
        list,
        above_block2(block),
        vertical,
    );
    mvd_class(a + b)
}
