// What a search of all nine partitions of a macroblock finds in one reference.
ghost use Rattle.std.specs.Prelude.{◌≡◌, ◌≤◌, ◌<◌, ◌+◌, ◌*◌, ℕ};
ghost use Rattle.block_sums.specs.Tables.{IsTableOf};
ghost use Rattle.motion_search.specs.Planes.{IsBlockOf};
ghost use Rattle.nine_search.specs.NineRefined.{vector_at, cost_at};
ghost use Rattle.nine_search.specs.Partitions.{partition_block};
ghost use Rattle.picture_planes.specs.Pictures.{planes_of};
ghost use Rattle.ref_lists.specs.Held.{IsMade, IsReady};
ghost use Rattle.spec_inter_plans.specs.InterPlans.{Search, at as block_at, found, nine_compared};
ghost use Rattle.subpel_filter.specs.Predicted.{IsShort};
ghost use Rattle.mode_choice.specs.Given.{IsSourceOf};

use crate::samples::lemma_samples_fit;
use block_sums::SumTable;
use motion_search::Steps;
use nine_search::{Refinements, refine_nine, search_nine};
use picture_planes::Plane;
use ref_lists::Reference;
use std::sync::ledger::Ledger;

/// The refined vectors of the nine partitions of the macroblock at (`x`, `y`) in a reference, what they cost, and how many vectors were
/// compared.
pub fn find_in<L: Ledger>(
    source: &Plane,
    source_sums: &SumTable,
    reference: &Reference,
    x: u32,
    y: u32,
    range: u32,
    steps: &mut Steps<L>,
) -> (Refinements, u32)
    requires made { IsMade source.now.width source.now.height reference.now }
    requires ready { IsReady reference.now }
    requires sums { IsTableOf source_sums.now source.now }
    requires macroblock { IsBlockOf source.now (block_at x y 16 16) }
    requires range { (1 ≤ range) × (range ≤ 32) }
    ensures found { (s : Search) → IsSourceOf s source.now → s.range ≡ range → (k : ℕ) → k < 9 → found s (partition_block x y k) (planes_of reference.now.picture) ≡ record { vector = vector_at result.0 k; size = cost_at result.0 k } }
    ensures compared { (s : Search) → IsSourceOf s source.now → s.range ≡ range → result.1 ≡ nine_compared s x y (planes_of reference.now.picture) }
    ensures counted { steps.new ≡ steps.old + result.1 }
    ensures small { (k : ℕ) → k < 9 → cost_at result.0 k ≤ 65280 }
    ensures short { (k : ℕ) → k < 9 → IsShort (vector_at result.0 k) }
{
    let luma = &reference.picture.y;
    lemma_samples_fit(source);
    lemma_samples_fit(luma);
    let nine = search_nine(
        source,
        luma,
        source_sums,
        &reference.sums,
        x,
        y,
        range,
        steps,
    );
    let refined = refine_nine(source, luma, &reference.halves, x, y, &nine);
    (refined, nine.compared)
}
