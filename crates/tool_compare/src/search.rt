// `search`: searches the nine partitions of each macroblock of pictures in one reference picture each, and prints what
// is found. The settings are width, height, the range of the search, and how many pairs of planes there are. The
// numbers of all lines are the pairs one after another, each the luma samples of a picture and of its reference, row by
// row. What is printed is a line for each partition: the parts of the best whole-sample vector, its cost, how many
// vectors were compared, the parts of the refined vector in quarter samples, and its cost.
ghost use Rattle.std.specs.Prelude.{◌≡◌, ◌≤◌, ◌<◌, ◌+◌, ◌*◌, length, IfOk, IsTrue};
ghost use Rattle.spec_search.specs.Window.{IsWindowBest};
ghost use Rattle.spec_search.specs.Refine.{IsRefined};
ghost use Rattle.motion_search.specs.Planes.{costs, IsBlockIn};
ghost use Rattle.motion_search.specs.Quarters.{quarter_costs};
ghost use Rattle.tool_compare.specs.Partitions.{partition_of};
ghost use Rattle.tool_compare.specs.Searches.{IsReady};

use crate::pictures::read_samples;
use block_sums::SumTable;
use enc_tables::{MOST_HEIGHT, MOST_WIDTH, Vector};
use motion_search::{Best, Block, refine, search_alone};
use picture_planes::Plane;
use std::alloc::{AllocError, Global};
use tool_input::{Fault, Numbers, all_numbers};

const WORDS: &str = "search WIDTH HEIGHT RANGE PAIRS";

// The partitions of the macroblock at this column and row of samples in their order: the whole, its upper and its lower
// half, its left and its right half, and its quarters row by row.
fn partition(left: u32, top: u32, part: u32) -> Block
    requires left { left ≤ 4096 }
    requires top { top ≤ 2304 }
    requires part { part < 9 }
    ensures value { result ≡ partition_of left top part }
    ensures inside { IsBlockIn (left + 16) (top + 16) result }
{
    if part == 0 {
        Block {
            x: left,
            y: top,
            w: 16,
            h: 16,
        }
    } else if part < 3 {
        Block {
            x: left,
            y: top + 8 * (part - 1),
            w: 16,
            h: 8,
        }
    } else if part < 5 {
        Block {
            x: left + 8 * (part - 3),
            y: top,
            w: 8,
            h: 16,
        }
    } else {
        Block {
            x: left + 8 * ((part - 5) % 2),
            y: top + 8 * ((part - 5) / 2),
            w: 8,
            h: 8,
        }
    }
}

/// A plane with its margin, and the sums of its 8x8 blocks.
#[derive(Drop)]
pub struct Summed {
    pub plane: Plane,
    pub sums: SumTable,
}

impl Summed {
    /// A plane of these samples, with the margin filled and all sums taken.
    pub fn new(alloc: Global, width: u32, height: u32, samples: &[u8]) -> Result<Summed, AllocError>
        requires width { (1 ≤ width) × (width ≤ 4096) }
        requires height { (1 ≤ height) × (height ≤ 2304) }
        requires samples { length samples.now ≡ height * width }
        ensures { IfOk result (λ s. IsReady width height s) }
    {
        let mut plane = Plane::new(alloc, width, height, 40)?;
        plane.set_rows(0, height, samples);
        plane.pad_edges();
        let mut sums = SumTable::new(alloc, width, height, 40)?;
        sums.fill(&plane);
        Ok(Summed { plane, sums })
    }
}

/// What is found for a partition.
#[derive(Drop)]
pub struct Found {
    /// The best whole-sample vector.
    pub best: Best,
    /// The vector that it is refined to, in quarter samples.
    pub refined: Vector,
    /// The cost of the refined vector.
    pub cost: u32,
}

// Searches a block's window and refines the best vector.
fn search_part(source: &Summed, reference: &Summed, block: Block, range: u32) -> Found
    requires source { IsReady source.now.plane.width source.now.plane.height source.now }
    requires reference { IsReady source.now.plane.width source.now.plane.height reference.now }
    requires block { IsBlockIn source.now.plane.width source.now.plane.height block }
    requires range { (1 ≤ range) × (range ≤ 32) }
    ensures best { IsWindowBest (costs source.now.plane reference.now.plane block) range result.best.dx result.best.dy result.best.sad }
    ensures refined { IsRefined (quarter_costs source.now.plane reference.now.plane block) result.best.dx result.best.dy result.refined result.cost }
{
    let best = search_alone(
        &source.plane,
        &reference.plane,
        &source.sums,
        &reference.sums,
        block,
        range,
    );
    let (refined, cost) = refine(&source.plane, &reference.plane, block, &best);
    Found {
        best,
        refined,
        cost,
    }
}

// Whether planes may have this size, and windows this range.
fn are_allowed(width: u32, height: u32, range: u32) -> bool
    ensures width { IsTrue result → (1 ≤ width) × (width ≤ 4096) }
    ensures height { IsTrue result → (1 ≤ height) × (height ≤ 2304) }
    ensures range { IsTrue result → (1 ≤ range) × (range ≤ 32) }
{
    if width == 0 || width > MOST_WIDTH {
        return false;
    }
    if height == 0 || height > MOST_HEIGHT {
        return false;
    }
    if range == 0 {
        return false;
    }
    range <= 32
}

// The next plane, of this size.
fn read_plane(
    alloc: Global,
    numbers: &mut Numbers,
    width: u32,
    height: u32,
) -> Result<Summed, Fault>
    requires width { (1 ≤ width) × (width ≤ 4096) }
    requires height { (1 ≤ height) × (height ≤ 2304) }
    ensures { IfOk result (λ s. IsReady width height s) }
{
    let count = height as usize * width as usize;
    let samples = read_samples(alloc, numbers, count)?;
    if samples.len() != count {
        return Err(Fault::Words(WORDS));
    }
    Ok(Summed::new(alloc, width, height, samples.as_slice())?)
}

// A line for each partition of the macroblock at this column and row of samples.
fn print_macroblock(
    rt: &HostRuntime,
    source: &Summed,
    reference: &Summed,
    left: u32,
    top: u32,
    range: u32,
) -> Result<(), Fault>
    requires source { IsReady source.now.plane.width source.now.plane.height source.now }
    requires reference { IsReady source.now.plane.width source.now.plane.height reference.now }
    requires across { left + 16 ≤ source.now.plane.width }
    requires down { top + 16 ≤ source.now.plane.height }
    requires range { (1 ≤ range) × (range ≤ 32) }
{
    for part in 0..9u32 {
        let block = partition(left, top, part);
        let found = search_part(source, reference, block, range);
        let best = found.best;
        let refined = found.refined;
        println!(rt;
            "{} {} {} {} {} {} {}",
            best.dx, best.dy, best.sad, best.compared, refined.x, refined.y, found.cost
        )?;
    }
    Ok(())
}

fn print_picture(
    rt: &HostRuntime,
    source: &Summed,
    reference: &Summed,
    range: u32,
) -> Result<(), Fault>
    requires source { IsReady source.now.plane.width source.now.plane.height source.now }
    requires reference { IsReady source.now.plane.width source.now.plane.height reference.now }
    requires range { (1 ≤ range) × (range ≤ 32) }
{
    for row in 0..source.plane.height / 16 {
        for column in 0..source.plane.width / 16 {
            print_macroblock(rt, source, reference, column * 16, row * 16, range)?;
        }
    }
    Ok(())
}

/// Searches in the pairs of planes of the lines by these settings.
pub fn search_pictures(rt: &HostRuntime, settings: &[u32], lines: &[String]) -> Result<(), Fault> {
    let [width, height, range, pairs] = settings else {
        return Err(Fault::Words(WORDS));
    };
    if !are_allowed(*width, *height, *range) {
        return Err(Fault::Words(WORDS));
    }
    let alloc = rt.alloc();
    let numbers = all_numbers(alloc, lines)?;
    let mut numbers = Numbers {
        left: numbers.as_slice(),
    };
    for _ in 0..*pairs {
        let source = read_plane(alloc, &mut numbers, *width, *height)?;
        let reference = read_plane(alloc, &mut numbers, *width, *height)?;
        print_picture(rt, &source, &reference, *range)?;
    }
    Ok(())
}
