// How strongly the parts of a macroblock's edges are filtered (ITU-T H.264, clause 8.7.2.1).
ghost use Rattle.std.specs.Prelude.{◌≡◌, ◌<◌, ◌≤◌, ℕ, ◌&&◌, ◌||◌, ◌==◌, ◌+◌, ◌*◌, ◌/◌, ◌%◌, cond, not, true, false, length, slice_index, slice_index_or, slice_range, Bool, nat_lt, Option, Some, None};
ghost use Rattle.spec_contexts.specs.Increments.{some_level};
ghost use Rattle.spec_filter.specs.Strengths.{is_coded as is_coded_at, strength as strength_of, picture_at, is_near as is_near_to, is_like as is_like_to, is_alike as is_alike_to, motion_at};
ghost use Rattle.spec_filter.specs.Macroblocks.{vertical_strength, horizontal_strength, strengths};
ghost use Rattle.deblock.specs.Coded.{CodedTo};

use enc_tables::{MbRecord, Motion, Vector};
use whole_numbers::block_number;

#[inline]
fn has_level(levels: &[i16]) -> bool
    ensures { result ≡ some_level levels.now }
{
    levels.iter().any(|level| *level != 0)
}

// Whether the transform block with this 4x4 block has a level that isn't 0.
#[inline]
#[tactic(auto, unfolding(spec_filter::specs::Strengths::is_coded))]
fn is_coded(mb: &MbRecord, row: usize, column: usize) -> bool
    requires row { row < 4 }
    requires column { column < 4 }
    ensures { result ≡ is_coded_at mb.now row column }
{
    let b = block_number(column, row);
    if mb.transform8 {
        let start = 64 * (b / 4);
        has_level(&mb.luma[start..start + 64])
    } else {
        let start = 16 * b;
        has_level(&mb.luma[start..start + 16])
    }
}

#[inline]
fn picture(pictures: &[i32], reference: i8) -> Option<i32>
    ensures { result ≡ picture_at pictures.now reference }
{
    if reference < 0 {
        None
    } else {
        pictures.get(reference as usize).copied()
    }
}

#[inline]
fn is_near(a: i16, b: i16) -> bool
    ensures { result ≡ is_near_to a b }
{
    a.abs_diff(b) < 4
}

#[inline]
fn is_like(a: Option<i32>, v: Vector, b: Option<i32>, w: Vector) -> bool
    ensures { result ≡ is_like_to a v b w }
{
    match (a, b) {
        (None, None) => true,
        (Some(p), Some(q)) => p == q && is_near(v.x, w.x) && is_near(v.y, w.y),
        _ => false,
    }
}

#[inline]
#[tactic(auto, unfolding(spec_filter::specs::Strengths::is_alike))]
fn is_alike(pictures0: &[i32], pictures1: &[i32], p: &Motion, q: &Motion) -> bool
    ensures { result ≡ is_alike_to pictures0.now pictures1.now p.now q.now }
{
    let p0 = picture(pictures0, p.refs[0]);
    let p1 = picture(pictures1, p.refs[1]);
    let q0 = picture(pictures0, q.refs[0]);
    let q1 = picture(pictures1, q.refs[1]);
    let [vp0, vp1] = p.vectors;
    let [vq0, vq1] = q.vectors;
    is_like(p0, vp0, q0, vq0) && is_like(p1, vp1, q1, vq1)
        || is_like(p0, vp0, q1, vq1) && is_like(p1, vp1, q0, vq0)
}

// Whether each 4x4 block, row by row, lies in a transform block with a level that isn't 0.
#[inline]
fn coded_blocks(mb: &MbRecord) -> [bool; 16]
    ensures { CodedTo 16 mb.now result }
{
    let mut coded = [false; 16];
    for i in 0..16 {
        coded[i] = is_coded(mb, i / 4, i % 4);
    }
    coded
}

// A 4x4 block at a side of an edge, and whether its transform block has a level that isn't 0.
#[derive(Clone, Copy)]
struct BlockSide<'a> {
    mb: &'a MbRecord,
    row: usize,
    column: usize,
    coded: bool,
}

#[inline]
fn motion_of<'a>(side: BlockSide<'a>) -> &'a Motion
    requires row { side.row < 4 }
    requires column { side.column < 4 }
    ensures { result.now ≡ motion_at side.entry.mb.now side.entry.row side.entry.column }
{
    &side.mb.motion[block_number(side.column, side.row) / 4]
}

// bS between two blocks.
#[inline]
#[tactic(auto, unfolding(spec_filter::specs::Strengths::strength))]
fn strength(pictures0: &[i32], pictures1: &[i32], outer: bool, p: BlockSide, q: BlockSide) -> u8
    requires rows { (p.row < 4) × (p.column < 4) × (q.row < 4) × (q.column < 4) }
    requires p_coded { p.coded ≡ is_coded_at p.mb.now p.row p.column }
    requires q_coded { q.coded ≡ is_coded_at q.mb.now q.row q.column }
    ensures { result ≡ strength_of pictures0.now pictures1.now outer p.entry.mb.now p.entry.row p.entry.column q.entry.mb.now q.entry.row q.entry.column }
{
    if p.mb.kind.is_intra() || q.mb.kind.is_intra() {
        return if outer { 4 } else { 3 };
    }
    if p.coded || q.coded {
        return 2;
    }
    if is_alike(pictures0, pictures1, motion_of(p), motion_of(q)) {
        0
    } else {
        1
    }
}

// Part g of vertical edge k.
#[inline]
#[tactic(auto, unfolding(spec_filter::specs::Macroblocks::vertical_strength))]
fn vertical_part(
    pictures0: &[i32],
    pictures1: &[i32],
    before: &MbRecord,
    mb: &MbRecord,
    coded: &[bool; 16],
    k: usize,
    g: usize,
) -> u8
    requires k { k < 4 }
    requires g { g < 4 }
    requires coded { CodedTo 16 mb.now coded.now }
    ensures { result ≡ vertical_strength pictures0.now pictures1.now before.now mb.now k g }
{
    let column = (k + 3) % 4;
    let p = if k == 0 {
        BlockSide {
            mb: before,
            row: g,
            column,
            coded: is_coded(before, g, column),
        }
    } else {
        BlockSide {
            mb,
            row: g,
            column,
            coded: coded[4 * g + column],
        }
    };
    let q = BlockSide {
        mb,
        row: g,
        column: k,
        coded: coded[4 * g + k],
    };
    strength(pictures0, pictures1, k == 0, p, q)
}

// Part g of horizontal edge k.
#[inline]
#[tactic(auto, unfolding(spec_filter::specs::Macroblocks::horizontal_strength))]
fn horizontal_part(
    pictures0: &[i32],
    pictures1: &[i32],
    before: &MbRecord,
    mb: &MbRecord,
    coded: &[bool; 16],
    k: usize,
    g: usize,
) -> u8
    requires k { k < 4 }
    requires g { g < 4 }
    requires coded { CodedTo 16 mb.now coded.now }
    ensures { result ≡ horizontal_strength pictures0.now pictures1.now before.now mb.now k g }
{
    let row = (k + 3) % 4;
    let p = if k == 0 {
        BlockSide {
            mb: before,
            row,
            column: g,
            coded: is_coded(before, row, g),
        }
    } else {
        BlockSide {
            mb,
            row,
            column: g,
            coded: coded[4 * row + g],
        }
    };
    let q = BlockSide {
        mb,
        row: k,
        column: g,
        coded: coded[4 * k + g],
    };
    strength(pictures0, pictures1, k == 0, p, q)
}

// bS of an intra macroblock.
const INTRA_STRENGTHS: [u8; 16] = [4, 4, 4, 4, 3, 3, 3, 3, 3, 3, 3, 3, 3, 3, 3, 3];

// bS of part g of vertical edge k at 4k + g.
pub fn vertical_strengths(
    pictures0: &[i32],
    pictures1: &[i32],
    before: &MbRecord,
    mb: &MbRecord,
) -> [u8; 16]
    ensures { result ≡ strengths (vertical_strength pictures0.now pictures1.now before.now mb.now) }
{
    if mb.kind.is_intra() {
        return INTRA_STRENGTHS;
    }
    let coded = coded_blocks(mb);
    let mut out = [0; 16];
    for i in 0..16 {
        out[i] = vertical_part(pictures0, pictures1, before, mb, &coded, i / 4, i % 4);
    }
    out
}

// bS of part g of horizontal edge k at 4k + g.
pub fn horizontal_strengths(
    pictures0: &[i32],
    pictures1: &[i32],
    before: &MbRecord,
    mb: &MbRecord,
) -> [u8; 16]
    ensures { result ≡ strengths (horizontal_strength pictures0.now pictures1.now before.now mb.now) }
{
    if mb.kind.is_intra() {
        return INTRA_STRENGTHS;
    }
    let coded = coded_blocks(mb);
    let mut out = [0; 16];
    for i in 0..16 {
        out[i] = horizontal_part(pictures0, pictures1, before, mb, &coded, i / 4, i % 4);
    }
    out
}
