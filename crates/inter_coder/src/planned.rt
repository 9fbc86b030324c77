// The inter macroblock that a plan asks for, before it has levels.
ghost use Rattle.std.specs.Prelude.{◌≡◌, ◌<◌, ◌++◌, ℕ, true, negsuc, slice_index_or};
ghost use Rattle.enc_tables.specs.Kinds.{has_motion};
ghost use Rattle.enc_tables.specs.Records.{zero_vector};
ghost use Rattle.spec_partitions.specs.Near.{View};
ghost use Rattle.spec_partitions.specs.Partitions.{by_part, four_vectors, part_count, part_of, shape_of};
ghost use Rattle.spec_partitions.specs.InRange.{AllFit};
ghost use Rattle.spec_partitions.specs.Small.{AllSmall, Small};
ghost use Rattle.spec_coded.specs.Planned.{planned, planned_motion, planned_part, planned_difference, plan_place, minus};
ghost use Rattle.inter_coder.specs.Given.{IsBeside};
ghost use Rattle.inter_coder.specs.Beside.{BesideSmall, PlanFits, PlanSmall};

use crate::fields::part_field;
use crate::given::Beside;
use crate::references::{uses, vector_at};
use enc_tables::{MbKind, MbPlan, MbRecord, Motion, Vector};
use motion_derive::predict;

// 0 for one partition, 1 for an upper and a lower one, 2 for a left and a right one, 3 for the four 8x8 blocks.
fn shape_of(kind: MbKind) -> u8
    ensures value { result ≡ shape_of kind }
    ensures small { result < 4 }
{
    match kind {
        MbKind::P16x8 | MbKind::B16x8 => 1,
        MbKind::P8x16 | MbKind::B8x16 => 2,
        MbKind::P8x8 | MbKind::B8x8 => 3,
        _ => 0,
    }
}

// How many partitions a shape has.
fn part_count(shape: u8) -> u8
    requires { shape < 4 }
    ensures value { result ≡ part_count shape }
    ensures small { result < 5 }
{
    match shape {
        0 => 1,
        1 => 2,
        2 => 2,
        _ => 4,
    }
}

// The partition that holds 8x8 block `k`.
fn part_of(shape: u8, k: u8) -> u8
    requires shape { shape < 4 }
    requires block { k < 4 }
    ensures value { result ≡ part_of shape k }
    ensures small { result < 4 }
    ensures inside { result < part_count shape }
{
    match shape {
        0 => 0,
        1 => k / 2,
        2 => k % 2,
        _ => k,
    }
}

// Where a partition of a shape stands among the nine of a plan.
fn plan_place(shape: u8, part: u8) -> usize
    requires shape { shape < 4 }
    requires part { part < part_count shape }
    ensures value { result ≡ plan_place shape part }
    ensures small { result < 9 }
{
    match shape {
        0 => part as usize,
        1 => 1 + part as usize,
        2 => 3 + part as usize,
        _ => 5 + part as usize,
    }
}

// The motion of a partition.
fn planned_part(plan: &MbPlan, shape: u8, part: u8) -> Motion
    requires shape { shape < 4 }
    requires part { part < part_count shape }
    ensures { result ≡ planned_part plan.now shape part }
{
    let place = plan_place(shape, part);
    plan.parts[place].motion
}

// The motion of 8x8 block `k`.
fn planned_block(plan: &MbPlan, shape: u8, k: u8) -> Motion
    requires shape { shape < 4 }
    requires block { k < 4 }
    ensures { result ≡ planned_part plan.now shape (part_of shape k) }
{
    let part = part_of(shape, k);
    planned_part(plan, shape, part)
}

// The motion of the four 8x8 blocks.
fn planned_motion(plan: &MbPlan, shape: u8) -> [Motion; 4]
    requires shape { shape < 4 }
    requires plan { PlanSmall 131 plan.now }
    ensures value { result ≡ planned_motion plan.now shape }
    ensures fits { (entries0 entries1 : ℕ) → PlanFits entries0 entries1 plan.now → AllFit entries0 entries1 result }
    ensures short { AllSmall 131 result }
{
    let first = planned_block(plan, shape, 0);
    let second = planned_block(plan, shape, 1);
    let third = planned_block(plan, shape, 2);
    let fourth = planned_block(plan, shape, 3);
    [first, second, third, fourth]
}

// What a vector differs from another, neither of which is longer than 131.
fn minus(v: Vector, w: Vector) -> Vector
    requires first { Small 131 v }
    requires second { Small 131 w }
    ensures { result ≡ minus v w }
{
    Vector {
        x: v.x - w.x,
        y: v.y - w.y,
    }
}

// The reference index of a block's motion in a list.
#[inline(always)]
fn reference(list: u8, motion: &Motion) -> i8
    requires { list < 2 }
    ensures { result ≡ slice_index_or motion.now.refs list (negsuc 0) }
{
    motion.refs[list as usize]
}

// What is written of a partition's vector in a list: what it differs from its prediction; zero where the list isn't used (clauses 7.4.5.1
// and 8.4.1).
fn difference(
    beside: &Beside<'_>,
    plan: &MbPlan,
    motion: &[Motion; 4],
    shape: u8,
    list: u8,
    part: u8,
) -> Vector
    requires shape { shape < 4 }
    requires part { part < part_count shape }
    requires list { list < 2 }
    requires motion { motion.now ≡ planned_motion plan.now shape }
    requires small { AllSmall 131 motion.now }
    requires plan { PlanSmall 131 plan.now }
    requires short { BesideSmall 131 beside.now }
    ensures { (view : View) → IsBeside view beside.now → result ≡ planned_difference view plan.now shape list part }
{
    let planned = planned_part(plan, shape, part);
    if !uses(list, &planned) {
        return Vector::ZERO;
    }
    let field = part_field(beside, motion, shape, part);
    let index = reference(list, &planned);
    let predicted = predict(shape, part, list, index, &field);
    let vector = vector_at(list, &planned);
    minus(vector, predicted)
}

// What is written of all partitions in a list.
fn by_part(
    beside: &Beside<'_>,
    plan: &MbPlan,
    motion: &[Motion; 4],
    shape: u8,
    list: u8,
) -> [Vector; 4]
    requires shape { shape < 4 }
    requires list { list < 2 }
    requires motion { motion.now ≡ planned_motion plan.now shape }
    requires small { AllSmall 131 motion.now }
    requires plan { PlanSmall 131 plan.now }
    requires short { BesideSmall 131 beside.now }
    ensures { (view : View) → IsBeside view beside.now → (part : ℕ) → part < part_count shape → slice_index_or result part zero_vector ≡ planned_difference view plan.now shape list part }
{
    let mut vectors = [Vector::ZERO; 4];
    let count = part_count(shape);
    for part in 0..count {
        vectors[part as usize] = difference(beside, plan, motion, shape, list, part);
    }
    vectors
}

// The vector of the partition that holds 8x8 block `k`.
#[inline(always)]
fn vector_in(vectors: &[Vector; 4], shape: u8, k: u8) -> Vector
    requires shape { shape < 4 }
    requires block { k < 4 }
    ensures { result ≡ slice_index_or vectors.now (part_of shape k) zero_vector }
{
    let part = part_of(shape, k);
    vectors[part as usize]
}

// What is written of the 8x8 blocks in a list.
fn differences(
    beside: &Beside<'_>,
    plan: &MbPlan,
    motion: &[Motion; 4],
    shape: u8,
    list: u8,
) -> [Vector; 4]
    requires shape { shape < 4 }
    requires list { list < 2 }
    requires motion { motion.now ≡ planned_motion plan.now shape }
    requires small { AllSmall 131 motion.now }
    requires plan { PlanSmall 131 plan.now }
    requires short { BesideSmall 131 beside.now }
    ensures { (view : View) → IsBeside view beside.now → result ≡ four_vectors shape (by_part (planned_difference view plan.now shape list) (part_count shape)) }
{
    let vectors = by_part(beside, plan, motion, shape, list);
    let first = vector_in(&vectors, shape, 0);
    let second = vector_in(&vectors, shape, 1);
    let third = vector_in(&vectors, shape, 2);
    let fourth = vector_in(&vectors, shape, 3);
    [first, second, third, fourth]
}

// The differences of both lists, one behind the other.
fn both(first: &[Vector; 4], second: &[Vector; 4]) -> [Vector; 8]
    ensures { result ≡ first.now ++ second.now }
{
    let mut vectors = [Vector::ZERO; 8];
    vectors[..4].copy_from_slice(first);
    vectors[4..].copy_from_slice(second);
    vectors
}

/// The macroblock that a plan asks for, of a kind with partitions: its motion and its vector differences.
pub fn planned(beside: &Beside<'_>, plan: &MbPlan, kind: MbKind, qp: u8) -> MbRecord
    requires plan { PlanSmall 131 plan.now }
    requires short { BesideSmall 131 beside.now }
    ensures fits { (entries0 entries1 : ℕ) → PlanFits entries0 entries1 plan.now → AllFit entries0 entries1 result.motion }
    ensures short { AllSmall 131 result.motion }
    ensures record { (view : View) → IsBeside view beside.now → result ≡ planned view plan.now kind qp }
{
    let shape = shape_of(kind);
    let motion = planned_motion(plan, shape);
    let first = differences(beside, plan, &motion, shape, 0);
    let second = differences(beside, plan, &motion, shape, 1);
    let mut mb = MbRecord::blank(kind, qp);
    mb.motion = motion;
    let mvd = both(&first, &second);
    mb.mvd = mvd;
    mb
}
