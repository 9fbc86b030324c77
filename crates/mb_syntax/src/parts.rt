// What is written of the partitions of P and B macroblocks (clauses 7.3.5.1 and 7.3.5.2).
ghost use Rattle.std.specs.Prelude.{◌≡◌, ◌≤◌, ◌<◌, ◌+◌, ◌*◌, true, nat_lt, nat_abs, get_or};
ghost use Rattle.enc_tables.specs.Records.{no_motion, is_used};
ghost use Rattle.spec_contexts.specs.Near.{pointed};
ghost use Rattle.enc_tables.specs.Kinds.{has_motion as has_motion_of};
ghost use Rattle.spec_contexts.specs.Increments.{ref_of, mvd_of, inc_mvd as inc_mvd_of};
ghost use Rattle.spec_syntax.specs.Inter.{mvd_string};
ghost use Rattle.spec_partitions.specs.Parts.{parts_string};
ghost use Rattle.spec_partitions.specs.Partitions.{shape_of as shape_of_kind, part_count as part_count_of, first_block as first_block_of};
ghost use Rattle.spec_partitions.specs.Inter.{is_four as is_four_of, ref_part_string, references_string, mvd_part_string, differences_string, sub_part_string, sub_types_string, inter_string};
ghost use Rattle.spec_macroblock.specs.Strings.{partitions_string};
ghost use Rattle.spec_syntax.specs.Sequences.{string_where};
ghost use Rattle.spec_macroblock.specs.Records.{IsRecord};
ghost use Rattle.bin_writer.specs.Coding.{seen, IsReady, Codes};
ghost use Rattle.mb_syntax.specs.Around.{near_of};

use crate::Around;
use bin_writer::code_bins;
use cabac_coder::Coder;
use cabac_contexts::{Contexts, inc_mvd, inc_ref};
use enc_tables::{MbKind, MbRecord, Motion};
use mb_binarise::{bins_mvd, bins_ref, bins_sub_type};

/// The shape of a macroblock's partitions: 0 for one, 1 for an upper and a lower one, 2 for a left and a right one, 3
/// for the four 8x8 blocks (tables 7-13 and 7-14). Of a kind without partitions it is 0.
pub fn shape_of(kind: MbKind) -> u8
    ensures value { result ≡ shape_of_kind kind }
    ensures most { result ≤ 3 }
{
    match kind {
        MbKind::P16x8 | MbKind::B16x8 => 1,
        MbKind::P8x16 | MbKind::B8x16 => 2,
        MbKind::P8x8 | MbKind::B8x8 => 3,
        _ => 0,
    }
}

/// How many partitions a shape has.
pub fn part_count(shape: u8) -> u8
    requires { shape ≤ 3 }
    ensures value { result ≡ part_count_of shape }
    ensures most { result ≤ 4 }
{
    match shape {
        0 => 1,
        1 => 2,
        2 => 2,
        _ => 4,
    }
}

/// The first 8x8 block of a partition.
pub fn first_block(shape: u8, part: u8) -> u8
    requires shape { shape ≤ 3 }
    requires part { part < part_count_of shape }
    ensures value { result ≡ first_block_of shape part }
    ensures most { result ≤ 3 }
{
    if shape == 1 { 2 * part } else { part }
}

/// Whether an 8x8 block, 0 to 3, uses a list, 0 or 1.
pub fn uses_list(mb: &MbRecord, list: u8, block: u8) -> bool
    requires list { list ≤ 1 }
    requires block { block ≤ 3 }
    ensures { result ≡ is_used (ref_of mb.now list block) }
{
    mb.motion[block as usize].refs[list as usize] >= 0
}

// Its reference, where it uses the list.
fn reference(mb: &MbRecord, list: u8, block: u8) -> u8
    requires list { list ≤ 1 }
    requires block { block ≤ 3 }
    ensures { result ≡ nat_abs (ref_of mb.now list block) }
{
    mb.motion[block as usize].refs[list as usize].unsigned_abs()
}

// A component of the written difference of an 8x8 block.
fn difference(mb: &MbRecord, list: u8, block: u8, vertical: bool) -> i16
    requires list { list ≤ 1 }
    requires block { block ≤ 3 }
    ensures { result ≡ mvd_of mb.now list block vertical }
{
    let vector = mb.mvd[4 * list as usize + block as usize];
    if vertical { vector.y } else { vector.x }
}

fn has_choice(entries: u8) -> bool
    ensures { result ≡ nat_lt 1 entries }
{
    entries > 1
}

// ref_idx of a partition.
fn write_reference(
    coder: &mut Coder,
    contexts: &mut Contexts,
    mb: &MbRecord,
    around: &Around,
    list: u8,
    entries: u8,
    part: u8,
)
    requires ready { IsReady (seen coder.old contexts.old) }
    requires record_ { IsRecord (near_of around.now mb.now) mb.now }
    requires moves { has_motion_of mb.now.kind ≡ true }
    requires list { list ≤ 1 }
    requires part { part < part_count_of (shape_of_kind mb.now.kind) }
    ensures { Codes (seen coder.old contexts.old) (ref_part_string (near_of around.now mb.now) mb.now list entries part) (seen coder.new contexts.new) }
{
    let block = first_block(shape_of(mb.kind), part);
    if !uses_list(mb, list, block) {
        return;
    }
    if !has_choice(entries) {
        return;
    }
    let inc = inc_ref(mb, around.left, around.above, list, block);
    let bins = bins_ref(inc, reference(mb, list, block));
    code_bins(coder, contexts, bins.as_slice());
}

// ref_idx of all partitions in a list.
fn write_references(
    coder: &mut Coder,
    contexts: &mut Contexts,
    mb: &MbRecord,
    around: &Around,
    list: u8,
    entries: u8,
)
    requires ready { IsReady (seen coder.old contexts.old) }
    requires record_ { IsRecord (near_of around.now mb.now) mb.now }
    requires moves { has_motion_of mb.now.kind ≡ true }
    requires list { list ≤ 1 }
    ensures { Codes (seen coder.old contexts.old) (references_string (near_of around.now mb.now) mb.now list entries) (seen coder.new contexts.new) }
{
    let count = part_count(shape_of(mb.kind));
    for part in 0..count {
        write_reference(coder, contexts, mb, around, list, entries, part);
    }
}

// A component of mvd of a partition that begins at an 8x8 block.
fn write_component(
    coder: &mut Coder,
    contexts: &mut Contexts,
    mb: &MbRecord,
    around: &Around,
    list: u8,
    block: u8,
    vertical: bool,
)
    requires ready { IsReady (seen coder.old contexts.old) }
    requires list { list ≤ 1 }
    requires block { block ≤ 3 }
    ensures { Codes (seen coder.old contexts.old) (mvd_string vertical (inc_mvd_of mb.now (pointed around.now.left) (pointed around.now.above) list block vertical) (mvd_of mb.now list block vertical)) (seen coder.new contexts.new) }
{
    let inc = inc_mvd(mb, around.left, around.above, list, block, vertical);
    let bins = bins_mvd(vertical, inc, difference(mb, list, block, vertical));
    code_bins(coder, contexts, bins.as_slice());
}

// mvd of a partition, to the right and then downwards.
fn write_difference(
    coder: &mut Coder,
    contexts: &mut Contexts,
    mb: &MbRecord,
    around: &Around,
    list: u8,
    part: u8,
)
    requires ready { IsReady (seen coder.old contexts.old) }
    requires list { list ≤ 1 }
    requires part { part < part_count_of (shape_of_kind mb.now.kind) }
    ensures { Codes (seen coder.old contexts.old) (mvd_part_string (near_of around.now mb.now) mb.now list part) (seen coder.new contexts.new) }
{
    let block = first_block(shape_of(mb.kind), part);
    if !uses_list(mb, list, block) {
        return;
    }
    write_component(coder, contexts, mb, around, list, block, false);
    write_component(coder, contexts, mb, around, list, block, true);
}

// mvd of all partitions in a list.
fn write_differences(
    coder: &mut Coder,
    contexts: &mut Contexts,
    mb: &MbRecord,
    around: &Around,
    list: u8,
)
    requires ready { IsReady (seen coder.old contexts.old) }
    requires list { list ≤ 1 }
    ensures { Codes (seen coder.old contexts.old) (differences_string (near_of around.now mb.now) mb.now list) (seen coder.new contexts.new) }
{
    let count = part_count(shape_of(mb.kind));
    for part in 0..count {
        write_difference(coder, contexts, mb, around, list, part);
    }
}

// What is written of the partitions behind their types.
fn write_inter(coder: &mut Coder, contexts: &mut Contexts, mb: &MbRecord, around: &Around)
    requires ready { IsReady (seen coder.old contexts.old) }
    requires record_ { IsRecord (near_of around.now mb.now) mb.now }
    requires moves { has_motion_of mb.now.kind ≡ true }
    ensures { Codes (seen coder.old contexts.old) (inter_string (near_of around.now mb.now) mb.now) (seen coder.new contexts.new) }
{
    write_references(coder, contexts, mb, around, 0, around.refs0);
    write_references(coder, contexts, mb, around, 1, around.refs1);
    write_differences(coder, contexts, mb, around, 0);
    write_differences(coder, contexts, mb, around, 1);
}

fn is_four(kind: MbKind) -> bool
    ensures { result ≡ is_four_of kind }
{
    matches!(kind, MbKind::P8x8 | MbKind::B8x8)
}

fn motion_of(mb: &MbRecord, block: u8) -> Motion
    requires { block ≤ 3 }
    ensures { result ≡ get_or mb.now.motion block no_motion }
{
    mb.motion[block as usize]
}

// sub_mb_type of an 8x8 block.
fn write_sub_type(
    coder: &mut Coder,
    contexts: &mut Contexts,
    mb: &MbRecord,
    around: &Around,
    block: u8,
)
    requires ready { IsReady (seen coder.old contexts.old) }
    requires record_ { IsRecord (near_of around.now mb.now) mb.now }
    requires four { is_four_of mb.now.kind ≡ true }
    requires block { block ≤ 3 }
    ensures { Codes (seen coder.old contexts.old) (sub_part_string around.now.kind mb.now block) (seen coder.new contexts.new) }
{
    let motion = motion_of(mb, block);
    let bins = bins_sub_type(around.kind, &motion);
    code_bins(coder, contexts, bins.as_slice());
}

fn write_sub_types(coder: &mut Coder, contexts: &mut Contexts, mb: &MbRecord, around: &Around)
    requires ready { IsReady (seen coder.old contexts.old) }
    requires record_ { IsRecord (near_of around.now mb.now) mb.now }
    requires four { is_four_of mb.now.kind ≡ true }
    ensures { Codes (seen coder.old contexts.old) (sub_types_string around.now.kind mb.now) (seen coder.new contexts.new) }
{
    for block in 0..4 {
        write_sub_type(coder, contexts, mb, around, block);
    }
}

fn write_four(coder: &mut Coder, contexts: &mut Contexts, mb: &MbRecord, around: &Around)
    requires ready { IsReady (seen coder.old contexts.old) }
    requires record_ { IsRecord (near_of around.now mb.now) mb.now }
    ensures { Codes (seen coder.old contexts.old) (string_where (is_four_of mb.now.kind) (sub_types_string around.now.kind mb.now)) (seen coder.new contexts.new) }
{
    if is_four(mb.kind) {
        write_sub_types(coder, contexts, mb, around);
    }
}

fn write_moving(coder: &mut Coder, contexts: &mut Contexts, mb: &MbRecord, around: &Around)
    requires ready { IsReady (seen coder.old contexts.old) }
    requires record_ { IsRecord (near_of around.now mb.now) mb.now }
    ensures { Codes (seen coder.old contexts.old) (string_where (has_motion_of mb.now.kind) (inter_string (near_of around.now mb.now) mb.now)) (seen coder.new contexts.new) }
{
    if mb.kind.has_motion() {
        write_inter(coder, contexts, mb, around);
    }
}

/// What is behind the type of a macroblock with partitions.
pub fn write_partitions(coder: &mut Coder, contexts: &mut Contexts, mb: &MbRecord, around: &Around)
    requires ready { IsReady (seen coder.old contexts.old) }
    requires record_ { IsRecord (near_of around.now mb.now) mb.now }
    ensures { Codes (seen coder.old contexts.old) (partitions_string mb.now.kind (near_of around.now mb.now) mb.now) (seen coder.new contexts.new) }
{
    write_four(coder, contexts, mb, around);
    write_moving(coder, contexts, mb, around);
}
