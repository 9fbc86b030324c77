// Whether a macroblock can be in slices of a kind, and what is written of its partitions (clauses 7.4.5 and 7.4.5.1).
ghost use Rattle.std.specs.Prelude.{◌≡◌, ◌≤◌, ◌<◌, ℕ, true, cond, get_or, length, replicate, IsTrue};
ghost use Rattle.enc_tables.specs.Records.{zero_vector};
ghost use Rattle.enc_tables.specs.Kinds.{has_motion as has_motion_of};
ghost use Rattle.spec_contexts.specs.Increments.{ref_of};
ghost use Rattle.spec_syntax.specs.Inter.{IsDifference};
ghost use Rattle.spec_partitions.specs.Partitions.{shape_of as shape_of_kind, part_count as part_count_of, part_of as part_of_block, part_mvd, difference_of, written_of, mvd_from};
ghost use Rattle.spec_partitions.specs.Records.{is_in as is_in_of, RefFits, UsesFit, PartFits, MvdFits};
ghost use Rattle.spec_macroblock.specs.Records.{TransformFits};
ghost use Rattle.mb_syntax.specs.Around.{near_of};

use enc_tables::{MbKind, MbRecord, SliceKind, Vector};
use mb_syntax::{Around, first_block, part_count, shape_of, uses_list};

/// Whether macroblocks of a kind are in slices of a kind, and are no I_PCM.
pub fn is_in(slice: SliceKind, kind: MbKind) -> bool
    ensures { IsTrue result → is_in_of slice kind ≡ true }
{
    match kind {
        MbKind::Pcm => false,
        MbKind::Intra4 | MbKind::Intra8 | MbKind::Intra16 => true,
        MbKind::P16 | MbKind::P16x8 | MbKind::P8x16 | MbKind::P8x8 | MbKind::PSkip => {
            matches!(slice, SliceKind::P)
        }
        _ => matches!(slice, SliceKind::B),
    }
}

/// Whether a macroblock of a kind can have such transforms, with luma levels or without them.
pub fn transform_fits(t8x8: bool, kind: MbKind, luma: bool, transform8: bool) -> bool
    ensures { IsTrue result → TransformFits t8x8 kind luma transform8 }
{
    match kind {
        MbKind::Pcm | MbKind::Intra4 | MbKind::Intra16 => !transform8,
        MbKind::Intra8 => t8x8 && transform8,
        _ => !transform8 || (t8x8 && luma),
    }
}

fn reference_fits(mb: &MbRecord, list: u8, block: u8, entries: u8) -> bool
    requires list { list ≤ 1 }
    requires block { block ≤ 3 }
    ensures { IsTrue result → RefFits entries (ref_of mb.now list block) }
{
    let reference = mb.motion[block as usize].refs[list as usize];
    if reference < 0 {
        return reference == -1;
    }
    reference < 4 && (reference as u8) < entries
}

fn uses_fit(slice: SliceKind, first: bool, second: bool) -> bool
    ensures { IsTrue result → UsesFit slice first second }
{
    match slice {
        SliceKind::I => false,
        SliceKind::P => first && !second,
        SliceKind::B => first || second,
    }
}

fn part_fits(mb: &MbRecord, around: &Around, part: u8) -> bool
    requires { part < part_count_of (shape_of_kind mb.now.kind) }
    ensures { IsTrue result → PartFits (near_of around.now mb.now) mb.now part }
{
    let block = first_block(shape_of(mb.kind), part);
    if !reference_fits(mb, 0, block, around.refs0) {
        return false;
    }
    if !reference_fits(mb, 1, block, around.refs1) {
        return false;
    }
    uses_fit(
        around.kind,
        uses_list(mb, 0, block),
        uses_list(mb, 1, block),
    )
}

/// Whether all partitions have references below the lengths of the lists, and use the lists that they can.
pub fn parts_fit(mb: &MbRecord, around: &Around) -> bool
    ensures { IsTrue result → has_motion_of mb.now.kind ≡ true → (part : ℕ) → part < part_count_of (shape_of_kind mb.now.kind) → PartFits (near_of around.now mb.now) mb.now part }
{
    if !mb.kind.has_motion() {
        return true;
    }
    for part in 0..part_count(shape_of(mb.kind)) {
        if !part_fits(mb, around, part) {
            return false;
        }
    }
    true
}

fn count(differences: &[Vector]) -> usize
    ensures { result ≡ length differences.now }
{
    differences.len()
}

// Whether a difference is at most 2^15 in size.
fn is_difference(mb: &MbRecord, place: usize) -> bool
    requires { place < 8 }
    ensures across { IsTrue result → IsDifference (get_or mb.now.mvd place zero_vector).x }
    ensures down { IsTrue result → IsDifference (get_or mb.now.mvd place zero_vector).y }
{
    mb.mvd[place].x.unsigned_abs() <= 32768 && mb.mvd[place].y.unsigned_abs() <= 32768
}

fn is_still(mb: &MbRecord, place: usize) -> bool
    requires { place < 8 }
    ensures { IsTrue result → get_or mb.now.mvd place zero_vector ≡ zero_vector }
{
    mb.mvd[place].x == 0 && mb.mvd[place].y == 0
}

fn difference_fits(mb: &MbRecord, list: u8, part: u8) -> bool
    requires list { list < 2 }
    requires part { part < part_count_of (shape_of_kind mb.now.kind) }
    ensures { IsTrue result → MvdFits mb.now list part }
{
    let block = first_block(shape_of(mb.kind), part);
    let place = 4 * list as usize + block as usize;
    if !is_difference(mb, place) {
        return false;
    }
    uses_list(mb, list, block) || is_still(mb, place)
}

fn list_fits(mb: &MbRecord, list: u8) -> bool
    requires { list < 2 }
    ensures { IsTrue result → (part : ℕ) → part < part_count_of (shape_of_kind mb.now.kind) → MvdFits mb.now list part }
{
    for part in 0..part_count(shape_of(mb.kind)) {
        if !difference_fits(mb, list, part) {
            return false;
        }
    }
    true
}

/// Whether the differences of lists that aren't used are zero.
pub fn differences_fit(mb: &MbRecord) -> bool
    ensures { IsTrue result → has_motion_of mb.now.kind ≡ true → (list : ℕ) → list < 2 → (part : ℕ) → part < part_count_of (shape_of_kind mb.now.kind) → MvdFits mb.now list part }
{
    if !mb.kind.has_motion() {
        return true;
    }
    list_fits(mb, 0) && list_fits(mb, 1)
}

// The partition that holds an 8x8 block.
fn part_of(shape: u8, block: u8) -> u8
    requires shape { shape ≤ 3 }
    requires block { block ≤ 3 }
    ensures value { result ≡ part_of_block shape block }
    ensures within { result < part_count_of shape }
{
    match shape {
        0 => 0,
        1 => block / 2,
        2 => block % 2,
        _ => block,
    }
}

fn is_same(mb: &MbRecord, place: usize, other: usize) -> bool
    requires place { place < 8 }
    requires other { other < 8 }
    ensures { IsTrue result → get_or mb.now.mvd place zero_vector ≡ get_or mb.now.mvd other zero_vector }
{
    mb.mvd[place].x == mb.mvd[other].x && mb.mvd[place].y == mb.mvd[other].y
}

// Whether an 8x8 block has the difference of its partition.
fn is_spread_at(mb: &MbRecord, list: u8, block: u8) -> bool
    requires list { list < 2 }
    requires block { block < 4 }
    ensures { IsTrue result → difference_of mb.now list block ≡ part_mvd mb.now list (part_of_block (shape_of_kind mb.now.kind) block) }
{
    let shape = shape_of(mb.kind);
    let first = first_block(shape, part_of(shape, block));
    let start = 4 * list as usize;
    is_same(mb, start + block as usize, start + first as usize)
}

fn is_spread(mb: &MbRecord, list: u8) -> bool
    requires { list < 2 }
    ensures { IsTrue result → (k : ℕ) → k < 4 → difference_of mb.now list k ≡ part_mvd mb.now list (part_of_block (shape_of_kind mb.now.kind) k) }
{
    for block in 0..4 {
        if !is_spread_at(mb, list, block) {
            return false;
        }
    }
    true
}

fn are_still(mb: &MbRecord) -> bool
    ensures { IsTrue result → mb.now.mvd ≡ replicate 8 zero_vector }
{
    for place in 0..8 {
        if !is_still(mb, place) {
            return false;
        }
    }
    if count(&mb.mvd) != 8 {
        return false;
    }
    true
}

/// Whether the differences of 8x8 blocks are those of their partitions, and zero where there are none.
pub fn differences_spread(mb: &MbRecord) -> bool
    ensures { IsTrue result → mb.now.mvd ≡ cond (has_motion_of mb.now.kind) (mvd_from mb.now.kind (written_of mb.now)) (replicate 8 zero_vector) }
{
    if !mb.kind.has_motion() {
        return are_still(mb);
    }
    if !is_spread(mb, 0) {
        return false;
    }
    if !is_spread(mb, 1) {
        return false;
    }
    if count(&mb.mvd) != 8 {
        return false;
    }
    true
}
