// `row_plans`: plans a picture of P or B slices and prints the motion of the nine partitions of each macroblock, and how many vectors were
// compared. The settings are the width and the height, the range of the search, 1 or 0 for the 8x8 transform, 1 for B slices and 0 for P
// slices, how many references there are, and the first row of macroblocks of each slice. The numbers of all lines are the references and
// then the picture. Of P slices the last reference is the first entry of list 0; of B slices the last one is that of list 1, and the one
// before it the first of list 0. What is printed is a line for each partition: its cost, and for each list the entry, -1 where there is
// none, and the parts of the vector in quarter samples; and behind the partitions of each row how many vectors were compared for it.
ghost use Rattle.std.specs.Prelude.{◌≡◌, ◌≤◌, ◌<◌, ◌+◌, ◌*◌, ℕ, pos, IsTrue, IfOk, length, vec_len};
ghost use Rattle.block_sums.specs.Tables.{IsTableOf};
ghost use Rattle.picture_planes.specs.Clamped.{rounded};
ghost use Rattle.picture_planes.specs.Margins.{IsFilled};
ghost use Rattle.ref_lists.specs.Entries.{ArePlaces};
ghost use Rattle.ref_lists.specs.Held.{AreHeld, IsMade};
ghost use Rattle.ref_lists.specs.Stored.{held_of, places_of, references_of, order_counts, width_of, height_of, IsNumberedNext, IsShownLast};
ghost use Rattle.spec_partitions.specs.InRange.{HasEntries};

use crate::pictures::{read_into, read_picture};
use crate::plans::slice_start;
use block_sums::SumTable;
use enc_tables::{PartPlan, RowPlan, SliceKind};
use mode_choice::plan_row_alone;
use picture_planes::Picture;
use ref_lists::{Lists, RefStore, Reference};
use std::alloc::Global;
use tool_input::{Fault, Numbers, all_numbers};

const WORDS: &str = "row_plans WIDTH HEIGHT RANGE T8X8 B REFERENCES FIRST_ROW..";

// How a picture is planned.
#[derive(Clone, Copy)]
struct Way<'a> {
    kind: SliceKind,
    range: u32,
    t8x8: bool,
    first_rows: &'a [u32],
}

// The next picture, as a reference with this number among them.
fn read_reference(
    alloc: Global,
    numbers: &mut Numbers,
    width: u32,
    height: u32,
    number: u16,
) -> Result<Reference, Fault>
    requires width { (1 ≤ width) × (width ≤ 4096) }
    requires height { (1 ≤ height) × (height ≤ 2304) }
    ensures made { IfOk result (λ r. IsMade (rounded width) (rounded height) r) }
    ensures poc { IfOk result (λ r. r.poc ≡ pos (2 * number)) }
    ensures frame_num { IfOk result (λ r. r.frame_num ≡ number) }
{
    let mut reference = Reference::new(alloc, width, height)?;
    read_into(alloc, numbers, width, height, &mut reference.picture)?;
    reference.poc = 2 * number as i32;
    reference.frame_num = number;
    Ok(reference)
}

// The next pictures, as references of which each is shown behind those before it.
fn read_references(
    alloc: Global,
    numbers: &mut Numbers,
    width: u32,
    height: u32,
    count: u32,
) -> Result<RefStore, Fault>
    requires width { (1 ≤ width) × (width ≤ 4096) }
    requires height { (1 ≤ height) × (height ≤ 2304) }
    requires count { (1 ≤ count) × (count ≤ 4) }
{
    let mut store = RefStore::new(alloc, width, height, count)?;
    for number in 0..count {
        let mut reference = read_reference(alloc, numbers, width, height, number as u16)?;
        store.slide(&mut reference);
    }
    Ok(store)
}

// Whether references have a source's size, where there are some.
fn are_as_large(held: &[Reference], source: &Picture) -> bool
    ensures { (width height : ℕ) → AreHeld width height held.now → IsTrue result → (source.now.y.width ≡ width) × (source.now.y.height ≡ height) }
{
    let [first, ..] = held else {
        return false;
    };
    first.picture.y.width == source.y.width && first.picture.y.height == source.y.height
}

// Whether lists have the entries that slices of a kind need.
#[tactic(auto, unfolding(spec_partitions::specs::InRange::HasEntries))]
fn have_entries(lists: &Lists<'_>, kind: SliceKind) -> bool
    ensures { IsTrue result → HasEntries kind (length lists.now.list0.items) (length lists.now.list1.items) }
{
    match kind {
        SliceKind::I => true,
        SliceKind::P => !lists.list0.is_empty(),
        SliceKind::B => !lists.list0.is_empty() && !lists.list1.is_empty(),
    }
}

fn print_part(rt: &HostRuntime, part: &PartPlan) -> Result<(), Fault> {
    let motion = part.motion;
    let [first, second] = motion.refs;
    let [v, w] = motion.vectors;
    println!(rt;
        "{} {first} {} {} {second} {} {}",
        part.cost, v.x, v.y, w.x, w.y
    )?;
    Ok(())
}

fn print_row(rt: &HostRuntime, plan: &RowPlan) -> Result<(), Fault> {
    for mb in &plan.mbs {
        for part in &mb.parts {
            print_part(rt, part)?;
        }
    }
    println!(rt; "compared {}", plan.compared)?;
    Ok(())
}

// Plans all rows of a picture.
fn print_rows(
    rt: &HostRuntime,
    source: &Picture,
    sums: &SumTable,
    lists: &Lists<'_>,
    way: Way<'_>,
    out: &mut RowPlan,
) -> Result<(), Fault>
    requires entries { HasEntries way.kind (length lists.now.list0.items) (length lists.now.list1.items) }
    requires inside { ArePlaces (length lists.now.held.now) lists.now.list0.items × ArePlaces (length lists.now.held.now) lists.now.list1.items }
    requires held { AreHeld source.now.y.width source.now.y.height lists.now.held.now }
    requires sums { IsTableOf sums.now source.now.y }
    requires range { (1 ≤ way.range) × (way.range ≤ 32) }
{
    for row in 0..source.y.height / 16 {
        if source.y.width % 16 != 0 || (source.y.width / 16) as usize != out.mbs.len() {
            return Err(Fault::Words(WORDS));
        }
        let first_row = slice_start(way.first_rows, row);
        plan_row_alone(
            source, sums, lists, way.kind, first_row, row, way.range, way.t8x8, out,
        );
        print_row(rt, out)?;
    }
    Ok(())
}

// Plans a picture over references.
fn print_plans(
    rt: &HostRuntime,
    source: &Picture,
    lists: &Lists<'_>,
    way: Way<'_>,
) -> Result<(), Fault>
    requires filled { IsFilled source.now.y }
    requires inside { ArePlaces (length lists.now.held.now) lists.now.list0.items × ArePlaces (length lists.now.held.now) lists.now.list1.items }
    requires held { (width : ℕ) × (height : ℕ) × AreHeld width height lists.now.held.now }
    requires range { (1 ≤ way.range) × (way.range ≤ 32) }
{
    if !are_as_large(lists.held, source) {
        return Err(Fault::Words(WORDS));
    }
    if !have_entries(lists, way.kind) {
        return Err(Fault::Words(WORDS));
    }
    let alloc = rt.alloc();
    let mut sums = SumTable::new(alloc, source.y.width, source.y.height, source.y.pad)?;
    sums.fill(&source.y);
    let mut out = RowPlan::new(alloc, source.y.width / 16)?;
    print_rows(rt, source, &sums, lists, way, &mut out)
}

// Whether pictures may have this size, and how many references there may be.
fn are_allowed(width: u32, height: u32, range: u32, count: u32) -> bool
    ensures width { IsTrue result → (1 ≤ width) × (width ≤ 4096) }
    ensures height { IsTrue result → (1 ≤ height) × (height ≤ 2304) }
    ensures range { IsTrue result → (1 ≤ range) × (range ≤ 32) }
    ensures count { IsTrue result → (1 ≤ count) × (count ≤ 4) }
{
    let sizes = (1..=4096).contains(&width) && (1..=2304).contains(&height);
    sizes && (1..=32).contains(&range) && (1..=4).contains(&count)
}

/// Plans the picture of the lines by these settings.
pub fn plan_rows(rt: &HostRuntime, settings: &[u32], lines: &[String]) -> Result<(), Fault> {
    let [width, height, range, t8x8, b, count, first_rows @ ..] = settings else {
        return Err(Fault::Words(WORDS));
    };
    if !are_allowed(*width, *height, *range, *count) {
        return Err(Fault::Words(WORDS));
    }
    let alloc = rt.alloc();
    let numbers = all_numbers(alloc, lines)?;
    let mut numbers = Numbers {
        left: numbers.as_slice(),
    };
    let store = read_references(alloc, &mut numbers, *width, *height, *count)?;
    let mut source = read_picture(alloc, &mut numbers, *width, *height)?;
    source.y.pad_edges();
    let (kind, poc) = if *b != 0 {
        (SliceKind::B, 2 * *count as i32 - 3)
    } else {
        (SliceKind::P, 2 * *count as i32)
    };
    let way = Way {
        kind,
        range: *range,
        t8x8: *t8x8 != 0,
        first_rows,
    };
    print_plans(rt, &source, &store.lists(kind, poc), way)
}
