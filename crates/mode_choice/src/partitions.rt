// The nine partitions of a macroblock, planned from the best entries of the lists.
ghost use Rattle.std.specs.Prelude.{◌≡◌, ◌≤◌, ◌<◌, ◌+◌, ◌*◌, ℕ, pos, length, get_or};
ghost use Rattle.enc_tables.specs.Choice.{lesser};
ghost use Rattle.motion_search.specs.Planes.{IsBlockOf};
ghost use Rattle.nine_search.specs.Partitions.{partition_block};
ghost use Rattle.picture_planes.specs.Pictures.{planes_of};
ghost use Rattle.ref_lists.specs.Entries.{ArePlaces};
ghost use Rattle.ref_lists.specs.Held.{AreHeld, IsMade, IsReady};
ghost use Rattle.spec_inter_plans.specs.InterPlans.{Search, at as block_at, no_planes, part_plan_cost, from_first, from_second, from_both};
ghost use Rattle.mode_choice.specs.Given.{IsSourceOf, pictures_at};
ghost use Rattle.mode_choice.specs.Entries.{as_listed, entry_at, IsEntry};
ghost use Rattle.mode_choice.specs.Parts.{part_at, best_of_both};

use crate::both::difference_of_both;
use crate::entries::Entry;
use crate::references::reference_at;
use enc_tables::{Motion, PartPlan, Vector};
use nine_search::nine_blocks;
use picture_planes::Plane;
use ref_lists::{Lists, Reference};
use spec_search::Block;

// The number of an entry, as motion names it.
fn index_of(number: u8) -> i8
    requires { number < 4 }
    ensures { result ≡ pos number }
{
    number as i8
}

fn from_first(a: Entry) -> PartPlan
    requires { IsEntry 4 a }
    ensures { result ≡ from_first (as_listed a) }
{
    let refs = [index_of(a.number), -1];
    let vectors = [a.vector, Vector { x: 0, y: 0 }];
    PartPlan {
        motion: Motion { refs, vectors },
        cost: a.cost,
    }
}

fn from_second(b: Entry) -> PartPlan
    requires { IsEntry 4 b }
    ensures { result ≡ from_second (as_listed b) }
{
    let refs = [-1, index_of(b.number)];
    let vectors = [Vector { x: 0, y: 0 }, b.vector];
    PartPlan {
        motion: Motion { refs, vectors },
        cost: b.cost,
    }
}

// Both lists' best together: two vectors cost 6 more.
fn from_both(
    source: &Plane,
    first: &Reference,
    second: &Reference,
    block: Block,
    a: Entry,
    b: Entry,
) -> PartPlan
    requires made { IsMade source.now.width source.now.height first.now × IsMade source.now.width source.now.height second.now }
    requires ready { IsReady first.now × IsReady second.now }
    requires block { IsBlockOf source.now block }
    requires entries { IsEntry 4 a × IsEntry 4 b }
    ensures value { (s : Search) → IsSourceOf s source.now → get_or s.sources.list0 a.number no_planes ≡ planes_of first.now.picture → get_or s.sources.list1 b.number no_planes ≡ planes_of second.now.picture → result ≡ from_both s block (as_listed a) (as_listed b) }
    ensures small { result.cost ≤ 65310 }
{
    let difference = difference_of_both(source, first, second, block, a.vector, b.vector);
    let i = index_of(a.number);
    let j = index_of(b.number);
    let refs = [i, j];
    let vectors = [a.vector, b.vector];
    PartPlan {
        motion: Motion { refs, vectors },
        cost: difference + 4 * a.number as u32 + 4 * b.number as u32 + 6,
    }
}

// Of two ways to predict a partition the one of less cost, the first where they cost the same.
#[tactic(auto, unfolding(enc_tables::specs::Choice::lesser))]
fn lesser_part(best: PartPlan, next: PartPlan) -> PartPlan
    ensures value { result ≡ lesser part_plan_cost best next }
    ensures most { result.cost ≤ best.cost }
{
    if next.cost < best.cost { next } else { best }
}

// A partition of a B macroblock.
fn best_of_both(
    source: &Plane,
    first: &Reference,
    second: &Reference,
    block: Block,
    a: Entry,
    b: Entry,
) -> PartPlan
    requires made { IsMade source.now.width source.now.height first.now × IsMade source.now.width source.now.height second.now }
    requires ready { IsReady first.now × IsReady second.now }
    requires block { IsBlockOf source.now block }
    requires entries { IsEntry 4 a × IsEntry 4 b }
    ensures value { (s : Search) → IsSourceOf s source.now → get_or s.sources.list0 a.number no_planes ≡ planes_of first.now.picture → get_or s.sources.list1 b.number no_planes ≡ planes_of second.now.picture → result ≡ best_of_both s block (as_listed a) (as_listed b) }
    ensures small { result.cost ≤ 65310 }
{
    let both = from_both(source, first, second, block, a, b);
    let best = lesser_part(from_first(a), from_second(b));
    lesser_part(best, both)
}

/// The partitions of a P macroblock.
pub fn parts_of_first(entries: &[Entry; 9]) -> [PartPlan; 9]
    requires { (k : ℕ) → k < 9 → IsEntry 4 (entry_at entries.now k) }
    ensures value { (k : ℕ) → k < 9 → part_at result k ≡ from_first (as_listed (entry_at entries.now k)) }
    ensures long { length result ≡ 9 }
    ensures small { (k : ℕ) → k < 9 → (part_at result k).cost ≤ 65310 }
{
    let mut parts = [from_first(entries[0]); 9];
    for k in 1..9usize {
        parts[k] = from_first(entries[k]);
    }
    parts
}

/// The partitions of the B macroblock at (`x`, `y`).
pub fn parts_of_both(
    source: &Plane,
    lists: &Lists<'_>,
    x: u32,
    y: u32,
    first: &[Entry; 9],
    second: &[Entry; 9],
) -> [PartPlan; 9]
    requires held { AreHeld source.now.width source.now.height lists.now.held.now }
    requires inside { ArePlaces (length lists.now.held.now) lists.now.list0.items × ArePlaces (length lists.now.held.now) lists.now.list1.items }
    requires few { (length lists.now.list0.items ≤ 4) × (length lists.now.list1.items ≤ 4) }
    requires macroblock { IsBlockOf source.now (block_at x y 16 16) }
    requires first { (k : ℕ) → k < 9 → IsEntry (length lists.now.list0.items) (entry_at first.now k) }
    requires second { (k : ℕ) → k < 9 → IsEntry (length lists.now.list1.items) (entry_at second.now k) }
    ensures value { (s : Search) → IsSourceOf s source.now → s.sources.list0 ≡ pictures_at lists.now.held.now lists.now.list0.items → s.sources.list1 ≡ pictures_at lists.now.held.now lists.now.list1.items → (k : ℕ) → k < 9 → part_at result k ≡ best_of_both s (partition_block x y k) (as_listed (entry_at first.now k)) (as_listed (entry_at second.now k)) }
    ensures long { length result ≡ 9 }
    ensures small { (k : ℕ) → k < 9 → (part_at result k).cost ≤ 65310 }
{
    let blocks = nine_blocks(x, y);
    let held = lists.held;
    let list0 = lists.list0.as_slice();
    let list1 = lists.list1.as_slice();
    let mut parts = [PartPlan {
        motion: Motion::NONE,
        cost: 0,
    }; 9];
    for k in 0..9usize {
        let a = first[k];
        let b = second[k];
        let p = reference_at(held, list0, a.number as usize);
        let q = reference_at(held, list1, b.number as usize);
        parts[k] = best_of_both(source, p, q, blocks[k], a, b);
    }
    parts
}
