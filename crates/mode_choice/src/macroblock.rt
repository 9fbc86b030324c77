// The inter part of a macroblock's plan.
ghost use Rattle.std.specs.Prelude.{◌≡◌, ◌≤◌, ◌<◌, ◌+◌, ◌*◌, ◌^◌, ℕ, length};
ghost use Rattle.enc_tables.specs.declared.SliceKind.TheVariants.{I, P, B};
ghost use Rattle.block_sums.specs.Tables.{IsTableOf};
ghost use Rattle.motion_search.specs.Planes.{IsBlockOf};
ghost use Rattle.ref_lists.specs.Entries.{ArePlaces};
ghost use Rattle.ref_lists.specs.Held.{AreHeld};
ghost use Rattle.spec_inter_plans.specs.InterPlans.{Search, at as block_at, inter_parts, parts_compared};
ghost use Rattle.spec_partitions.specs.InRange.{HasEntries};
ghost use Rattle.mode_choice.specs.Given.{IsSourceOf, sources_in, used};
ghost use Rattle.mode_choice.specs.Parts.{part_at};

use crate::entries::best_of_list;
use crate::partitions::{parts_of_both, parts_of_first};
use block_sums::SumTable;
use enc_tables::{Motion, PartPlan, SliceKind};
use motion_search::Steps;
use picture_planes::Plane;
use ref_lists::Lists;
use std::sync::ledger::Ledger;

/// The inter part of a macroblock's plan.
#[derive(Clone, Copy, Drop)]
pub struct InterPlan {
    /// The nine partitions.
    pub parts: [PartPlan; 9],
    /// How many vectors were compared for them.
    pub compared: u64,
}

// Intra slices have no inter part.
fn plan_of_i() -> InterPlan
    ensures parts { (s : Search) (x y : ℕ) → result.parts ≡ inter_parts I s x y }
    ensures compared { (s : Search) (x y : ℕ) → result.compared ≡ parts_compared (used I s) x y }
    ensures nothing { result.compared ≡ 0 }
    ensures long { length result.parts ≡ 9 }
    ensures small { (k : ℕ) → k < 9 → (part_at result.parts k).cost ≤ 65310 }
{
    let parts = [PartPlan {
        motion: Motion::NONE,
        cost: 0,
    }; 9];
    InterPlan { parts, compared: 0 }
}

fn plan_of_p<L: Ledger>(
    source: &Plane,
    source_sums: &SumTable,
    lists: &Lists<'_>,
    x: u32,
    y: u32,
    range: u32,
    steps: &mut Steps<L>,
) -> InterPlan
    requires some { 0 < length lists.now.list0.items }
    requires few { length lists.now.list0.items ≤ 4 }
    requires inside { ArePlaces (length lists.now.held.now) lists.now.list0.items }
    requires held { AreHeld source.now.width source.now.height lists.now.held.now }
    requires sums { IsTableOf source_sums.now source.now }
    requires macroblock { IsBlockOf source.now (block_at x y 16 16) }
    requires range { (1 ≤ range) × (range ≤ 32) }
    ensures parts { (s : Search) → IsSourceOf s source.now → s.range ≡ range → s.sources ≡ sources_in lists.now → result.parts ≡ inter_parts P s x y }
    ensures compared { (s : Search) → IsSourceOf s source.now → s.range ≡ range → s.sources ≡ sources_in lists.now → result.compared ≡ parts_compared (used P s) x y }
    ensures counted { steps.new ≡ steps.old + result.compared }
    ensures most { result.compared ≤ 2 ^ 34 }
    ensures long { length result.parts ≡ 9 }
    ensures small { (k : ℕ) → k < 9 → (part_at result.parts k).cost ≤ 65310 }
{
    let list0 = lists.list0.as_slice();
    let best = best_of_list(source, source_sums, lists.held, list0, x, y, range, steps);
    let parts = parts_of_first(&best.entries);
    InterPlan {
        parts,
        compared: best.compared,
    }
}

fn plan_of_b<L: Ledger>(
    source: &Plane,
    source_sums: &SumTable,
    lists: &Lists<'_>,
    x: u32,
    y: u32,
    range: u32,
    steps: &mut Steps<L>,
) -> InterPlan
    requires some { (0 < length lists.now.list0.items) × (0 < length lists.now.list1.items) }
    requires few { (length lists.now.list0.items ≤ 4) × (length lists.now.list1.items ≤ 4) }
    requires inside { ArePlaces (length lists.now.held.now) lists.now.list0.items × ArePlaces (length lists.now.held.now) lists.now.list1.items }
    requires held { AreHeld source.now.width source.now.height lists.now.held.now }
    requires sums { IsTableOf source_sums.now source.now }
    requires macroblock { IsBlockOf source.now (block_at x y 16 16) }
    requires range { (1 ≤ range) × (range ≤ 32) }
    ensures parts { (s : Search) → IsSourceOf s source.now → s.range ≡ range → s.sources ≡ sources_in lists.now → result.parts ≡ inter_parts B s x y }
    ensures compared { (s : Search) → IsSourceOf s source.now → s.range ≡ range → s.sources ≡ sources_in lists.now → result.compared ≡ parts_compared (used B s) x y }
    ensures counted { steps.new ≡ steps.old + result.compared }
    ensures most { result.compared ≤ 2 ^ 35 }
    ensures long { length result.parts ≡ 9 }
    ensures small { (k : ℕ) → k < 9 → (part_at result.parts k).cost ≤ 65310 }
{
    let list0 = lists.list0.as_slice();
    let list1 = lists.list1.as_slice();
    let held = lists.held;
    let first = best_of_list(source, source_sums, held, list0, x, y, range, steps);
    let second = best_of_list(source, source_sums, held, list1, x, y, range, steps);
    let parts = parts_of_both(source, lists, x, y, &first.entries, &second.entries);
    InterPlan {
        parts,
        compared: first.compared + second.compared,
    }
}

/// The inter part of the plan of the macroblock at (`x`, `y`), over the pictures of the lists that a slice of this kind has.
pub fn plan_inter<L: Ledger>(
    source: &Plane,
    source_sums: &SumTable,
    lists: &Lists<'_>,
    kind: SliceKind,
    x: u32,
    y: u32,
    range: u32,
    steps: &mut Steps<L>,
) -> InterPlan
    requires entries { HasEntries kind (length lists.now.list0.items) (length lists.now.list1.items) }
    requires few { (length lists.now.list0.items ≤ 4) × (length lists.now.list1.items ≤ 4) }
    requires inside { ArePlaces (length lists.now.held.now) lists.now.list0.items × ArePlaces (length lists.now.held.now) lists.now.list1.items }
    requires held { AreHeld source.now.width source.now.height lists.now.held.now }
    requires sums { IsTableOf source_sums.now source.now }
    requires macroblock { IsBlockOf source.now (block_at x y 16 16) }
    requires range { (1 ≤ range) × (range ≤ 32) }
    ensures parts { (s : Search) → IsSourceOf s source.now → s.range ≡ range → s.sources ≡ sources_in lists.now → result.parts ≡ inter_parts kind s x y }
    ensures compared { (s : Search) → IsSourceOf s source.now → s.range ≡ range → s.sources ≡ sources_in lists.now → result.compared ≡ parts_compared (used kind s) x y }
    ensures counted { steps.new ≡ steps.old + result.compared }
    ensures most { result.compared ≤ 2 ^ 35 }
    ensures long { length result.parts ≡ 9 }
    ensures small { (k : ℕ) → k < 9 → (part_at result.parts k).cost ≤ 65310 }
{
    match kind {
        SliceKind::I => plan_of_i(),
        SliceKind::P => plan_of_p(source, source_sums, lists, x, y, range, steps),
        SliceKind::B => plan_of_b(source, source_sums, lists, x, y, range, steps),
    }
}
