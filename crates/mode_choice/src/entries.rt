// The best entry of a list for each of the nine partitions of a macroblock.
ghost use Rattle.std.specs.Prelude.{◌≡◌, ◌≤◌, ◌<◌, ◌+◌, ◌*◌, ◌^◌, ℕ, length, pos};
ghost use Rattle.std.specs.List.{sum_by};
ghost use Rattle.block_sums.specs.Tables.{IsTableOf};
ghost use Rattle.enc_tables.specs.Choice.{lesser};
ghost use Rattle.motion_search.specs.Planes.{IsBlockOf};
ghost use Rattle.nine_search.specs.NineRefined.{vector_at, cost_at};
ghost use Rattle.nine_search.specs.Partitions.{partition_block};
ghost use Rattle.ref_lists.specs.Entries.{ArePlaces};
ghost use Rattle.ref_lists.specs.Held.{AreHeld};
ghost use Rattle.spec_inter_plans.specs.InterPlans.{Search, at as block_at, nine_compared, best_of_list};
ghost use Rattle.subpel_filter.specs.Predicted.{IsShort};
ghost use Rattle.mode_choice.specs.Given.{IsSourceOf, pictures_at};
ghost use Rattle.mode_choice.specs.Entries.{as_listed, entry_at, entry_cost, IsEntry};

use crate::references::reference_at;
use crate::searches::find_in;
use block_sums::SumTable;
use enc_tables::Vector;
use motion_search::Steps;
use nine_search::Refinements;
use picture_planes::Plane;
use ref_lists::Reference;
use std::sync::ledger::Ledger;

/// The best of a list for a partition.
#[derive(Clone, Copy, Drop)]
pub struct Entry {
    /// The entry's number.
    pub number: u8,
    /// The best vector in its picture.
    pub vector: Vector,
    /// What both cost.
    pub cost: u32,
}

/// The best of a list for each of the nine partitions of a macroblock.
#[derive(Clone, Copy, Drop)]
pub struct Bests {
    /// The best of each.
    pub entries: [Entry; 9],
    /// How many vectors were compared.
    pub compared: u64,
}

// The entry of one partition: each place in the list costs 4 more.
fn entry_of(refined: &Refinements, number: u8, k: usize) -> Entry
    requires number { number ≤ 3 }
    requires place { k < 9 }
    requires small { cost_at refined.now k ≤ 65280 }
    ensures number { result.number ≡ number }
    ensures vector { result.vector ≡ vector_at refined.now k }
    ensures cost { result.cost ≡ cost_at refined.now k + 4 * number }
{
    Entry {
        number,
        vector: refined.vectors[k],
        cost: refined.sads[k] + 4 * number as u32,
    }
}

// What was found in the picture of entry `number`.
fn entries_of(refined: &Refinements, number: u8) -> [Entry; 9]
    requires number { number ≤ 3 }
    requires small { (k : ℕ) → k < 9 → cost_at refined.now k ≤ 65280 }
    ensures number { (k : ℕ) → k < 9 → (entry_at result k).number ≡ number }
    ensures vector { (k : ℕ) → k < 9 → (entry_at result k).vector ≡ vector_at refined.now k }
    ensures cost { (k : ℕ) → k < 9 → (entry_at result k).cost ≡ cost_at refined.now k + 4 * number }
{
    let mut entries = [Entry {
        number,
        vector: Vector { x: 0, y: 0 },
        cost: 0,
    }; 9];
    for k in 0..9usize {
        entries[k] = entry_of(refined, number, k);
    }
    entries
}

// Of two entries the one of less cost, the first where they cost the same.
#[inline(always)]
#[tactic(auto, unfolding(enc_tables::specs::Choice::lesser))]
fn lesser_entry(best: Entry, next: Entry) -> Entry
    ensures { result ≡ lesser entry_cost best next }
{
    if next.cost < best.cost { next } else { best }
}

// The same for each partition.
fn lesser_entries(bests: &[Entry; 9], next: &[Entry; 9]) -> [Entry; 9]
    ensures { (k : ℕ) → k < 9 → entry_at result k ≡ lesser entry_cost (entry_at bests.now k) (entry_at next.now k) }
{
    let mut entries = *bests;
    for k in 0..9usize {
        entries[k] = lesser_entry(entries[k], next[k]);
    }
    entries
}

/// The best of the list whose entries are at these places among the held references, for each of the nine partitions of the macroblock at
/// (`x`, `y`): the first of least cost. Each place in the list costs 4 more.
pub fn best_of_list<L: Ledger>(
    source: &Plane,
    source_sums: &SumTable,
    held: &[Reference],
    places: &[u8],
    x: u32,
    y: u32,
    range: u32,
    steps: &mut Steps<L>,
) -> Bests
    requires some { 0 < length places.now }
    requires few { length places.now ≤ 4 }
    requires inside { ArePlaces (length held.now) places.now }
    requires held { AreHeld source.now.width source.now.height held.now }
    requires sums { IsTableOf source_sums.now source.now }
    requires macroblock { IsBlockOf source.now (block_at x y 16 16) }
    requires range { (1 ≤ range) × (range ≤ 32) }
    ensures best { (s : Search) → IsSourceOf s source.now → s.range ≡ range → (k : ℕ) → k < 9 → as_listed (entry_at result.entries k) ≡ best_of_list s (partition_block x y k) (pictures_at held.now places.now) }
    ensures compared { (s : Search) → IsSourceOf s source.now → s.range ≡ range → result.compared ≡ sum_by (nine_compared s x y) (pictures_at held.now places.now) }
    ensures counted { steps.new ≡ steps.old + result.compared }
    ensures most { result.compared ≤ 2 ^ 34 }
    ensures entries { (k : ℕ) → k < 9 → IsEntry (length places.now) (entry_at result.entries k) }
{
    let nearest = reference_at(held, places, 0);
    let first = find_in(source, source_sums, nearest, x, y, range, steps);
    let mut entries = entries_of(&first.0, 0);
    let mut compared = first.1 as u64;
    for number in 1..places.len() {
        let reference = reference_at(held, places, number);
        let next = find_in(source, source_sums, reference, x, y, range, steps);
        let others = entries_of(&next.0, number as u8);
        entries = lesser_entries(&entries, &others);
        compared += next.1 as u64;
    }
    Bests { entries, compared }
}
