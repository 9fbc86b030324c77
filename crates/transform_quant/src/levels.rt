// The levels of whole blocks.
ghost use Rattle.std.specs.Prelude.{◌≡◌, ◌≤◌, ◌<◌, ◌+◌, ◌*◌, ℕ, if◌then◌else◌};
ghost use Rattle.spec_residual.specs.declared.BlockKind.TheVariants.{ChromaDc, Luma8};
ghost use Rattle.spec_residual.specs.Blocks.{AllWithin, is_nonzero, item, nonzero_levels};
ghost use Rattle.spec_residual.specs.Levels.{chroma_dc_levels_of, greatest, level_of, levels4_of, levels8_of, places};

use crate::blocks4::levels4;
use crate::quant::quantise;
use crate::tables::{zigzag4, zigzag8};
use spec_residual::BlockKind;

/// The levels of a 4x4 block.
#[derive(Clone, Copy)]
pub struct Levels4 {
    /// In zigzag order.
    pub levels: [i16; 16],
    /// How many aren't 0.
    pub nonzero: u32,
}

/// The levels of an 8x8 luma block.
#[derive(Clone, Copy)]
pub struct Levels8 {
    /// In zigzag order.
    pub levels: [i16; 64],
    /// How many aren't 0.
    pub nonzero: u32,
}

/// The DC levels of a chroma component.
#[derive(Clone, Copy)]
pub struct LevelsDc {
    /// Row by row, which is their scan.
    pub levels: [i16; 4],
    /// How many aren't 0.
    pub nonzero: u32,
}

#[inline(always)]
fn one_if_nonzero(level: i16) -> u32
    ensures { result ≡ (if is_nonzero level then 1 else 0) }
{
    if level == 0 { 0 } else { 1 }
}

#[inline(always)]
fn level_at(levels: &[i16; 16], place: u8) -> i16
    requires { place < 16 }
    ensures { result ≡ item levels.now place }
{
    levels[place as usize]
}

/// The levels of sixteen coefficients, which stand row by row, in zigzag order: of a 4x4 block, or of luma DC
/// coefficients. Where a block is coded without its first coefficient, that coefficient is 0 here.
pub fn quantise4(kind: BlockKind, intra: bool, qp: u8, c: &[i32; 16]) -> Levels4
    requires in_range { qp ≤ 51 }
    requires of_kind { places kind ≡ 16 }
    requires size { AllWithin 16 65280 c.now }
    ensures value { result.levels ≡ levels4_of kind intra qp c.now }
    ensures nonzero { result.nonzero ≡ nonzero_levels result.levels }
    ensures small { AllWithin 16 (greatest kind) c.now → AllWithin 16 8191 result.levels }
{
    let all = levels4(kind, intra, qp, c);
    let mut levels = [0i16; 16];
    let mut nonzero = 0u32;
    for scan in 0..16usize {
        let place = zigzag4(scan);
        let level = level_at(&all, place);
        levels[scan] = level;
        nonzero += one_if_nonzero(level);
    }
    Levels4 { levels, nonzero }
}

/// The levels of an 8x8 luma block, whose coefficients stand row by row, in zigzag order.
pub fn quantise8(intra: bool, qp: u8, c: &[i32; 64]) -> Levels8
    requires in_range { qp ≤ 51 }
    requires size { AllWithin 64 65280 c.now }
    ensures value { result.levels ≡ levels8_of intra qp c.now }
    ensures nonzero { result.nonzero ≡ nonzero_levels result.levels }
    ensures small { AllWithin 64 (greatest Luma8) c.now → AllWithin 64 8191 result.levels }
{
    let mut levels = [0i16; 64];
    let mut nonzero = 0u32;
    for scan in 0..64usize {
        let place = zigzag8(scan);
        let level = quantise(BlockKind::Luma8, intra, qp, place, c[place as usize]);
        levels[scan] = level;
        nonzero += one_if_nonzero(level);
    }
    Levels8 { levels, nonzero }
}

/// The levels of chroma DC coefficients, row by row, where `qp` is the chroma parameter.
pub fn quantise_chroma_dc(intra: bool, qp: u8, c: &[i32; 4]) -> LevelsDc
    requires in_range { qp ≤ 51 }
    requires size { AllWithin 4 65280 c.now }
    ensures value { result.levels ≡ chroma_dc_levels_of intra qp c.now }
    ensures nonzero { result.nonzero ≡ nonzero_levels result.levels }
    ensures small { AllWithin 4 (greatest ChromaDc) c.now → AllWithin 4 8191 result.levels }
{
    let mut levels = [0i16; 4];
    let mut nonzero = 0u32;
    for scan in 0..4usize {
        let place = scan as u8;
        let level = quantise(BlockKind::ChromaDc, intra, qp, place, c[place as usize]);
        levels[scan] = level;
        nonzero += one_if_nonzero(level);
    }
    LevelsDc { levels, nonzero }
}
