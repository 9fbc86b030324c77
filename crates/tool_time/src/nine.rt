// `nine`: searches the nine partitions of each macroblock of a picture at once. The settings are width, height, the range of the search,
// how often, and whether the vectors are refined (1) or not (0). Standard input is that of `search`. What is printed is a sum over the best
// vectors and their costs, and how many vectors were compared.
ghost use Rattle.std.specs.Prelude.{◌≡◌, ◌≤◌, ◌*◌, length, IfOk};
ghost use Rattle.block_sums.specs.Tables.{IsTableOf};
ghost use Rattle.picture_planes.specs.Margins.{IsFilled};
ghost use Rattle.subpel_filter.specs.Halves.{AreSized};
ghost use Rattle.motion_search.specs.Planes.{SameSize};

use crate::random::Random;
use crate::search::{Total, are_allowed, random_samples, read_samples};
use block_sums::SumTable;
use nine_search::{Nine, Refinements, refine_nine, search_nine_alone};
use picture_planes::Plane;
use std::alloc::{AllocError, Global};
use std::io::BufReader;
use subpel_filter::{HalfPlanes, fill_halves};
use tool_input::Fault;

const WORDS: &str = "nine WIDTH HEIGHT RANGE TIMES 0|1";

fn add_nine(total: &mut Total, nine: &Nine) {
    for k in 0..9 {
        total.add(nine.sads[k]);
        total.add((nine.dx[k] as i32 + 32768) as u32);
        total.add((nine.dy[k] as i32 + 32768) as u32);
    }
    total.compared = total.compared.wrapping_add(nine.compared as u64);
}

fn add_refinements(total: &mut Total, refined: &Refinements) {
    for k in 0..9 {
        total.add(refined.sads[k]);
        total.add((refined.vectors[k].x as i32 + 32768) as u32);
        total.add((refined.vectors[k].y as i32 + 32768) as u32);
    }
}

// Searches the window of each macroblock, and refines what is found if it is told so.
fn search_all(
    source: &Plane,
    reference: &Plane,
    halves: &HalfPlanes,
    source_sums: &SumTable,
    sums: &SumTable,
    range: u32,
    is_refined: bool,
    total: &mut Total,
)
    requires margin { reference.now.pad ≡ 40 }
    requires filled { IsFilled reference.now }
    requires sizes { SameSize source.now reference.now }
    requires halves { AreSized reference.now halves.now }
    requires source_table { IsTableOf source_sums.now source.now }
    requires table { IsTableOf sums.now reference.now }
    requires range { (1 ≤ range) × (range ≤ 32) }
{
    for row in 0..source.height / 16 {
        for column in 0..source.width / 16 {
            let x = column * 16;
            let y = row * 16;
            let nine = search_nine_alone(source, reference, source_sums, sums, x, y, range);
            if is_refined {
                add_refinements(total, &refine_nine(source, reference, halves, x, y, &nine));
            }
            add_nine(total, &nine);
        }
    }
}

// Half planes like a plane, before they are filled.
fn blank_halves(alloc: Global, plane: &Plane) -> Result<HalfPlanes, AllocError>
    ensures { IfOk result (λ h. AreSized plane.now h) }
{
    let b = Plane::new(alloc, plane.width, plane.height, plane.pad)?;
    let h = Plane::new(alloc, plane.width, plane.height, plane.pad)?;
    let j = Plane::new(alloc, plane.width, plane.height, plane.pad)?;
    Ok(HalfPlanes { b, h, j })
}

// Searches all windows as often as it is told.
fn repeat(
    alloc: Global,
    width: u32,
    height: u32,
    source: &[u8],
    reference: &[u8],
    range: u32,
    times: u32,
    is_refined: bool,
) -> Result<Total, AllocError>
    requires width { (1 ≤ width) × (width ≤ 4096) }
    requires height { (1 ≤ height) × (height ≤ 2304) }
    requires source { length source.now ≡ height * width }
    requires reference { length reference.now ≡ height * width }
    requires range { (1 ≤ range) × (range ≤ 32) }
{
    let mut from = Plane::new(alloc, width, height, 40)?;
    from.set_rows(0, height, source);
    from.pad_edges();
    let mut to = Plane::new(alloc, width, height, 40)?;
    to.set_rows(0, height, reference);
    to.pad_edges();
    let mut halves = blank_halves(alloc, &to)?;
    fill_halves(&to, &mut halves);
    let mut from_sums = SumTable::new(alloc, width, height, 40)?;
    from_sums.fill(&from);
    let mut to_sums = SumTable::new(alloc, width, height, 40)?;
    to_sums.fill(&to);
    let mut total = Total {
        sum: 0,
        compared: 0,
    };
    for _ in 0..times {
        search_all(
            &from, &to, &halves, &from_sums, &to_sums, range, is_refined, &mut total,
        );
    }
    Ok(total)
}

fn measure(
    rt: &HostRuntime,
    settings: &[u32],
    source: &[u8],
    reference: &[u8],
) -> Result<(), Fault> {
    let [width, height, range, times, refined] = settings else {
        return Err(Fault::Words(WORDS));
    };
    if !are_allowed(*width, *height, *range) {
        return Err(Fault::Words(WORDS));
    }
    let count = *height as usize * *width as usize;
    if source.len() != count || reference.len() != count {
        return Err(Fault::Words(WORDS));
    }
    let total = repeat(
        rt.alloc(),
        *width,
        *height,
        source,
        reference,
        *range,
        *times,
        *refined == 1,
    )?;
    println!(rt; "sum {} compared {}", total.sum, total.compared)?;
    Ok(())
}

/// Searches in the planes of standard input by these settings.
pub fn search(rt: &HostRuntime, settings: &[u32]) -> Result<(), Fault> {
    let [width, height, ..] = settings else {
        return Err(Fault::Words(WORDS));
    };
    let alloc = rt.alloc();
    let mut reader = BufReader::new(alloc, rt.reader())?;
    let count = *height as usize * *width as usize;
    let source = read_samples(alloc, &mut reader, count)?;
    let reference = read_samples(alloc, &mut reader, count)?;
    measure(rt, settings, source.as_slice(), reference.as_slice())
}

/// Searches in two planes of 32x16 random samples.
pub fn search_made(rt: &HostRuntime) -> Result<(), Fault> {
    let mut random = Random::first();
    let source = random_samples(rt.alloc(), &mut random, 512)?;
    let reference = random_samples(rt.alloc(), &mut random, 512)?;
    measure(
        rt,
        &[32, 16, 3, 2, 1],
        source.as_slice(),
        reference.as_slice(),
    )
}
