// `blocks`: takes random 4x4 or 8x8 blocks through the transforms and the quantiser and back. What is printed is a sum
// of all that comes back.
ghost use Rattle.std.specs.Prelude.{◌≡◌, ◌≤◌, ◌<◌, IfOk};
ghost use Rattle.std.specs.List.{All};
ghost use Rattle.spec_residual.specs.Blocks.{AllWithin};
ghost use Rattle.spec_basics.specs.Bounds.{Within};
ghost use Rattle.spec_residual.specs.Levels.{greatest, places};
ghost use Rattle.spec_residual.specs.declared.BlockKind.TheVariants.{Luma4};
ghost use Rattle.tool_time.specs.Through.{IsDifferences, remade, all_remade, through4 as through4_of, through8 as through8_of};

use crate::random::Random;
use std::alloc::{AllocError, Global};
use tool_input::Fault;
use transform_quant::{
    BlockKind, forward4, forward8, inverse4, inverse8, levels4, quantise, rescale, rescale4,
};

// How many blocks there are.
const BLOCKS: usize = 1024;

// The quantisation parameter.
const QP: u8 = 26;

// The coefficient that a decoder makes of the level of a coefficient.
#[inline(always)]
fn remade(kind: BlockKind, intra: bool, qp: u8, place: u8, c: i32) -> i32
    requires in_range { qp ≤ 51 }
    requires inside { place < places kind }
    requires size { Within 65280 c }
    requires of_kind { Within (greatest kind) c }
    ensures { result ≡ remade kind intra qp place c }
{
    let level = quantise(kind, intra, qp, place, c);
    rescale(kind, qp, place, level as i32)
}

#[inline(always)]
fn all_remade<const N: usize>(kind: BlockKind, intra: bool, qp: u8, c: &[i32; N]) -> [i32; N]
    requires in_range { qp ≤ 51 }
    requires inside { N ≤ places kind }
    requires few { N ≤ 64 }
    requires size { AllWithin N 65280 c.now }
    requires of_kind { AllWithin N (greatest kind) c.now }
    ensures value { result ≡ all_remade N kind intra qp c.now }
    ensures small { AllWithin N 1048576 result }
{
    let mut out = [0i32; N];
    for p in 0..N {
        out[p] = remade(kind, intra, qp, p as u8, c[p]);
    }
    out
}

#[inline(always)]
fn all_remade4(intra: bool, qp: u8, c: &[i32; 16]) -> [i32; 16]
    requires in_range { qp ≤ 51 }
    requires size { AllWithin 16 65280 c.now }
    requires of_kind { AllWithin 16 (greatest Luma4) c.now }
    ensures value { result ≡ all_remade 16 Luma4 intra qp c.now }
    ensures small { AllWithin 16 1048576 result }
{
    rescale4(qp, &levels4(BlockKind::Luma4, intra, qp, c))
}

// A 4x4 block of differences transformed, quantised, rescaled and transformed back.
fn through4(intra: bool, qp: u8, r: &[i16; 16]) -> [i32; 16]
    requires in_range { qp ≤ 51 }
    requires size { IsDifferences 16 r.now }
    ensures { result ≡ through4_of intra qp r.now }
{
    inverse4(&all_remade4(intra, qp, &forward4(r)))
}

// An 8x8 block of differences transformed, quantised, rescaled and transformed back.
fn through8(intra: bool, qp: u8, r: &[i16; 64]) -> [i32; 64]
    requires in_range { qp ≤ 51 }
    requires size { IsDifferences 64 r.now }
    ensures { result ≡ through8_of intra qp r.now }
{
    inverse8(&all_remade(BlockKind::Luma8, intra, qp, &forward8(r)))
}

fn differences<const N: usize>(random: &mut Random) -> [i16; N]
    ensures { IsDifferences N result }
{
    let mut out = [0i16; N];
    for p in 0..N {
        out[p] = random.difference();
    }
    out
}

fn random_blocks<const N: usize>(alloc: Global) -> Result<Vec<[i16; N]>, AllocError>
    ensures { IfOk result (λ blocks. All (IsDifferences N) blocks.items) }
{
    let mut random = Random::first();
    let mut blocks = Vec::with_capacity(alloc, BLOCKS)?;
    for _ in 0..BLOCKS {
        if blocks.push(differences(&mut random)).is_err() {
            return Err(AllocError);
        }
    }
    Ok(blocks)
}

// A sum to which a block's numbers are added.
#[inline]
fn with_block<const N: usize>(sum: i32, block: &[i32; N]) -> i32 {
    let mut added = 0i32;
    for p in 0..N {
        added = added.wrapping_add(block[p]);
    }
    sum.wrapping_mul(31).wrapping_add(added)
}

fn run4(blocks: &[[i16; 16]], sum: i32) -> i32
    requires { All (IsDifferences 16) blocks.now }
{
    let mut sum = sum;
    for block in blocks {
        sum = with_block(sum, &through4(true, QP, block));
    }
    sum
}

fn run8(blocks: &[[i16; 64]], sum: i32) -> i32
    requires { All (IsDifferences 64) blocks.now }
{
    let mut sum = sum;
    for block in blocks {
        sum = with_block(sum, &through8(true, QP, block));
    }
    sum
}

fn sum_of_4x4(alloc: Global, times: u32) -> Result<i32, AllocError> {
    let blocks = random_blocks(alloc)?;
    let mut sum = 0;
    for _ in 0..times {
        sum = run4(blocks.as_slice(), sum);
    }
    Ok(sum)
}

fn sum_of_8x8(alloc: Global, times: u32) -> Result<i32, AllocError> {
    let blocks = random_blocks(alloc)?;
    let mut sum = 0;
    for _ in 0..times {
        sum = run8(blocks.as_slice(), sum);
    }
    Ok(sum)
}

/// Takes 4x4 blocks through the transforms this often.
pub fn through_4x4(rt: &HostRuntime, times: u32) -> Result<(), Fault> {
    let sum = sum_of_4x4(rt.alloc(), times)?;
    println!(rt; "sum {sum}")?;
    Ok(())
}

/// Takes 8x8 blocks through the transforms this often.
pub fn through_8x8(rt: &HostRuntime, times: u32) -> Result<(), Fault> {
    let sum = sum_of_8x8(rt.alloc(), times)?;
    println!(rt; "sum {sum}")?;
    Ok(())
}
