// The blocks beside a macroblock and its partitions (ITU-T H.264, clauses 6.4.11.7 and 8.4.1.3.2).
ghost use Rattle.std.specs.Prelude.{◌≡◌, ◌<◌, []};
ghost use Rattle.std.specs.Option.{option_or};
ghost use Rattle.spec_contexts.specs.Near.{pointed};
ghost use Rattle.spec_partitions.specs.Near.{View};
ghost use Rattle.spec_partitions.specs.Partitions.{part_of, part_count};
ghost use Rattle.spec_partitions.specs.Derived.{motion_in, field_at, whole_field, part_field, known_block, known_blocks};
ghost use Rattle.inter_coder.specs.Given.{IsBeside};

use crate::blocks::motion_at;
use crate::given::Beside;
use enc_tables::{MbRecord, Motion};
use spec_motion::Field;

// The motion of 8x8 block `k` of a macroblock that may not be available.
#[inline]
fn motion_in(mb: Option<&MbRecord>, k: usize) -> Option<Motion>
    requires { k < 4 }
    ensures { result ≡ motion_in (pointed mb.entry) k }
{
    match mb {
        Some(mb) => Some(motion_at(&mb.motion, k)),
        None => None,
    }
}

// What is there; the second where the first isn't.
#[inline]
fn either(first: Option<Motion>, second: Option<Motion>) -> Option<Motion>
    ensures { result ≡ option_or first second }
{
    match first {
        Some(_) => first,
        None => second,
    }
}

/// The blocks beside a whole macroblock.
pub fn whole_field(beside: &Beside<'_>) -> Field
    ensures { (view : View) → IsBeside view beside.now → result ≡ whole_field view }
{
    let a = motion_in(beside.left, 1);
    let b = motion_in(beside.above, 2);
    let right = motion_in(beside.above_right, 2);
    let corner = motion_in(beside.above_left, 3);
    let c = either(right, corner);
    Field { a, b, c }
}

// Those beside the lower partition of 16x8. No block above at the right is available, and D is at the left.
fn lower_half(beside: &Beside<'_>, motion: &[Motion; 4]) -> Field
    ensures { (view : View) → IsBeside view beside.now → result ≡ part_field view (known_blocks 1 motion.now 1) 1 1 }
{
    let a = motion_in(beside.left, 3);
    let c = motion_in(beside.left, 1);
    let above = motion_at(motion, 0);
    Field {
        a,
        b: Some(above),
        c,
    }
}

// Those beside the left partition of 8x16, and beside the first 8x8 block.
fn upper_left(beside: &Beside<'_>) -> Field
    ensures { (view : View) → IsBeside view beside.now → result ≡ field_at view [] 0 0 1 }
{
    let a = motion_in(beside.left, 1);
    let b = motion_in(beside.above, 2);
    let right = motion_in(beside.above, 3);
    let corner = motion_in(beside.above_left, 3);
    let c = either(right, corner);
    Field { a, b, c }
}

// Those beside the right partition of 8x16, and beside the second 8x8 block.
fn upper_right(beside: &Beside<'_>, motion: &[Motion; 4]) -> Field
    ensures { (view : View) → IsBeside view beside.now → result ≡ part_field view (known_blocks 3 motion.now 1) 3 1 }
{
    let b = motion_in(beside.above, 3);
    let right = motion_in(beside.above_right, 2);
    let corner = motion_in(beside.above, 2);
    let c = either(right, corner);
    let left = motion_at(motion, 0);
    Field {
        a: Some(left),
        b,
        c,
    }
}

// Those beside the third 8x8 block.
fn lower_left(beside: &Beside<'_>, motion: &[Motion; 4]) -> Field
    ensures { (view : View) → IsBeside view beside.now → result ≡ part_field view (known_blocks 3 motion.now 2) 3 2 }
{
    let a = motion_in(beside.left, 3);
    let above = motion_at(motion, 0);
    let right = motion_at(motion, 1);
    Field {
        a,
        b: Some(above),
        c: Some(right),
    }
}

// Those beside the fourth 8x8 block: the other three.
fn lower_right(motion: &[Motion; 4]) -> Field
    ensures { (view : View) → result ≡ part_field view (known_blocks 3 motion.now 3) 3 3 }
{
    let left = motion_at(motion, 2);
    let above = motion_at(motion, 1);
    let corner = motion_at(motion, 0);
    Field {
        a: Some(left),
        b: Some(above),
        c: Some(corner),
    }
}

// Those beside an 8x8 block.
fn quarter(beside: &Beside<'_>, motion: &[Motion; 4], part: u8) -> Field
    requires { part < 4 }
    ensures { (view : View) → IsBeside view beside.now → result ≡ part_field view (known_blocks 3 motion.now part) 3 part }
{
    if part == 0 {
        return upper_left(beside);
    }
    if part == 1 {
        return upper_right(beside, motion);
    }
    if part == 2 {
        return lower_left(beside, motion);
    }
    lower_right(motion)
}

/// The blocks beside a partition of a macroblock of a shape: 0 for 16x16, 1 for 16x8, 2 for 8x16, 3 for 8x8. `motion` is that of all four 8x8
/// blocks; of these the ones of earlier partitions count.
pub fn part_field(beside: &Beside<'_>, motion: &[Motion; 4], shape: u8, part: u8) -> Field
    requires shape { shape < 4 }
    requires part { part < part_count shape }
    ensures { (view : View) → IsBeside view beside.now → result ≡ part_field view (known_blocks shape motion.now part) shape part }
{
    if shape == 3 {
        return quarter(beside, motion, part);
    }
    if part == 0 {
        if shape == 2 {
            return upper_left(beside);
        }
        return whole_field(beside);
    }
    if shape == 2 {
        return upper_right(beside, motion);
    }
    lower_half(beside, motion)
}
