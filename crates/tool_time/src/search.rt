// `search`: searches the window of each macroblock of a picture. The settings are width, height, the range of the
// search, and how often. Standard input has the luma samples of the picture and of its reference as bytes, row by row.
// What is printed is a sum over the best vectors and their costs, and how many vectors were compared.
ghost use Rattle.std.specs.Prelude.{◌≡◌, ◌≤◌, ◌*◌, length, IsTrue};
ghost use Rattle.block_sums.specs.Tables.{IsTableOf};
ghost use Rattle.picture_planes.specs.Margins.{IsFilled};
ghost use Rattle.motion_search.specs.Planes.{SameSize};

use crate::random::Random;
use block_sums::SumTable;
use enc_tables::{MOST_HEIGHT, MOST_WIDTH};
use motion_search::{Best, Block, search_alone};
use picture_planes::Plane;
use std::alloc::{AllocError, Global};
use std::io::{BufReader, Read};
use tool_input::Fault;

const WORDS: &str = "search WIDTH HEIGHT RANGE TIMES";

/// What many searches found: a sum over vectors and costs, and how many vectors were compared.
#[derive(Clone, Copy, Drop)]
pub struct Total {
    pub sum: u32,
    pub compared: u64,
}

impl Total {
    pub fn add(&mut self, number: u32) {
        self.sum = self.sum.wrapping_mul(31).wrapping_add(number);
    }

    fn add_best(&mut self, best: Best) {
        self.add(best.sad);
        self.add((best.dx as i32 + 32768) as u32);
        self.add((best.dy as i32 + 32768) as u32);
        self.compared = self.compared.wrapping_add(best.compared as u64);
    }
}

// Searches the window of each macroblock.
fn search_all(
    source: &Plane,
    reference: &Plane,
    source_sums: &SumTable,
    sums: &SumTable,
    range: u32,
    total: &mut Total,
)
    requires margin { reference.now.pad ≡ 40 }
    requires filled { IsFilled reference.now }
    requires sizes { SameSize source.now reference.now }
    requires source_table { IsTableOf source_sums.now source.now }
    requires table { IsTableOf sums.now reference.now }
    requires range { (1 ≤ range) × (range ≤ 32) }
{
    for row in 0..source.height / 16 {
        for column in 0..source.width / 16 {
            let block = Block {
                x: column * 16,
                y: row * 16,
                w: 16,
                h: 16,
            };
            let best = search_alone(source, reference, source_sums, sums, block, range);
            total.add_best(best);
        }
    }
}

// Searches all windows as often as it is told.
fn repeat(
    alloc: Global,
    width: u32,
    height: u32,
    source: &[u8],
    reference: &[u8],
    range: u32,
    times: u32,
) -> Result<Total, AllocError>
    requires width { (1 ≤ width) × (width ≤ 4096) }
    requires height { (1 ≤ height) × (height ≤ 2304) }
    requires source { length source.now ≡ height * width }
    requires reference { length reference.now ≡ height * width }
    requires range { (1 ≤ range) × (range ≤ 32) }
{
    let mut from = Plane::new(alloc, width, height, 40)?;
    from.set_rows(0, height, source);
    from.pad_edges();
    let mut to = Plane::new(alloc, width, height, 40)?;
    to.set_rows(0, height, reference);
    to.pad_edges();
    let mut from_sums = SumTable::new(alloc, width, height, 40)?;
    from_sums.fill(&from);
    let mut to_sums = SumTable::new(alloc, width, height, 40)?;
    to_sums.fill(&to);
    let mut total = Total {
        sum: 0,
        compared: 0,
    };
    for _ in 0..times {
        search_all(&from, &to, &from_sums, &to_sums, range, &mut total);
    }
    Ok(total)
}

/// Whether planes of this size can be searched by this range.
pub fn are_allowed(width: u32, height: u32, range: u32) -> bool
    ensures width { IsTrue result → (1 ≤ width) × (width ≤ 4096) }
    ensures height { IsTrue result → (1 ≤ height) × (height ≤ 2304) }
    ensures range { IsTrue result → (1 ≤ range) × (range ≤ 32) }
{
    if width == 0 || width > MOST_WIDTH {
        return false;
    }
    if height == 0 || height > MOST_HEIGHT {
        return false;
    }
    if range == 0 {
        return false;
    }
    range <= 32
}

/// Reads the samples of a plane.
pub fn read_samples<R: Read>(
    alloc: Global,
    reader: &mut R,
    count: usize,
) -> Result<Vec<u8>, Fault> {
    let mut samples = vec![in alloc; 0u8; count]?;
    reader.read_exact(samples.as_mut_slice())?;
    Ok(samples)
}

/// So many random samples.
pub fn random_samples(
    alloc: Global,
    random: &mut Random,
    count: usize,
) -> Result<Vec<u8>, AllocError> {
    let mut samples = Vec::new(alloc);
    for _ in 0..count {
        samples.push(random.sample())?;
    }
    Ok(samples)
}

fn measure(
    rt: &HostRuntime,
    settings: &[u32],
    source: &[u8],
    reference: &[u8],
) -> Result<(), Fault> {
    let [width, height, range, times] = settings else {
        return Err(Fault::Words(WORDS));
    };
    if !are_allowed(*width, *height, *range) {
        return Err(Fault::Words(WORDS));
    }
    let count = *height as usize * *width as usize;
    if source.len() != count || reference.len() != count {
        return Err(Fault::Words(WORDS));
    }
    let total = repeat(
        rt.alloc(),
        *width,
        *height,
        source,
        reference,
        *range,
        *times,
    )?;
    println!(rt; "sum {} compared {}", total.sum, total.compared)?;
    Ok(())
}

/// Searches in the planes of standard input by these settings.
pub fn search(rt: &HostRuntime, settings: &[u32]) -> Result<(), Fault> {
    let [width, height, ..] = settings else {
        return Err(Fault::Words(WORDS));
    };
    let alloc = rt.alloc();
    let mut reader = BufReader::new(alloc, rt.reader())?;
    let count = *height as usize * *width as usize;
    let source = read_samples(alloc, &mut reader, count)?;
    let reference = read_samples(alloc, &mut reader, count)?;
    measure(rt, settings, source.as_slice(), reference.as_slice())
}

/// Searches in two planes of 32x16 random samples.
pub fn search_made(rt: &HostRuntime) -> Result<(), Fault> {
    let mut random = Random::first();
    let source = random_samples(rt.alloc(), &mut random, 512)?;
    let reference = random_samples(rt.alloc(), &mut random, 512)?;
    measure(rt, &[32, 16, 3, 2], source.as_slice(), reference.as_slice())
}
