// The plans of a row of macroblocks.
ghost use Rattle.std.specs.Prelude.{◌≡◌, ◌≤◌, ◌<◌, ◌+◌, ◌*◌, ◌^◌, ℕ, length, vec_len};
ghost use Rattle.std.specs.List.{All};
ghost use Rattle.block_sums.specs.Tables.{IsTableOf};
ghost use Rattle.enc_tables.specs.Choice.{SmallCosts};
ghost use Rattle.picture_planes.specs.Pictures.{planes_of};
ghost use Rattle.ref_lists.specs.Entries.{ArePlaces};
ghost use Rattle.ref_lists.specs.Held.{AreHeld};
ghost use Rattle.spec_inter_plans.specs.InterPlans.{plan_of, row_plans, row_compared, parts_compared};
ghost use Rattle.spec_partitions.specs.InRange.{HasEntries};
ghost use Rattle.mode_choice.specs.Given.{search_of, used};

use crate::macroblock::plan_inter;
use crate::references::lemma_lists_are_short;
use block_sums::SumTable;
use enc_tables::{MbPlan, RowPlan, SliceKind};
use intra_plans::plan_macroblock;
use motion_search::Steps;
use picture_planes::Picture;
use ref_lists::Lists;
use std::sync::ledger::Ledger;

// The plan of the macroblock in this column of the row, and how many vectors were compared for it.
fn plan_at<L: Ledger>(
    source: &Picture,
    source_sums: &SumTable,
    lists: &Lists<'_>,
    kind: SliceKind,
    width: u32,
    first_row: u32,
    row: u32,
    column: u32,
    range: u32,
    t8x8: bool,
    steps: &mut Steps<L>,
) -> (MbPlan, u64)
    requires width { source.now.y.width ≡ 16 * width }
    requires row { 16 * row + 16 ≤ source.now.y.height }
    requires first { first_row ≤ row }
    requires column { column < width }
    requires entries { HasEntries kind (length lists.now.list0.items) (length lists.now.list1.items) }
    requires few { (length lists.now.list0.items ≤ 4) × (length lists.now.list1.items ≤ 4) }
    requires inside { ArePlaces (length lists.now.held.now) lists.now.list0.items × ArePlaces (length lists.now.held.now) lists.now.list1.items }
    requires held { AreHeld source.now.y.width source.now.y.height lists.now.held.now }
    requires sums { IsTableOf source_sums.now source.now.y }
    requires range { (1 ≤ range) × (range ≤ 32) }
    ensures plan { result.0 ≡ plan_of kind (search_of width lists.now (planes_of source.now) range) first_row t8x8 row column }
    ensures compared { result.1 ≡ parts_compared (used kind (search_of width lists.now (planes_of source.now) range)) (16 * column) (16 * row) }
    ensures counted { steps.new ≡ steps.old + result.1 }
    ensures most { result.1 ≤ 2 ^ 35 }
    ensures small { SmallCosts result.0 }
{
    let mut plan = plan_macroblock(source, width, first_row, row, column, t8x8);
    let inter = plan_inter(
        &source.y,
        source_sums,
        lists,
        kind,
        16 * column,
        16 * row,
        range,
        steps,
    );
    let parts = inter.parts;
    plan.parts = parts;
    (plan, inter.compared)
}

/// Plans row `row` of macroblocks of the source for a slice of this kind that begins with row `first_row`: for each macroblock the best intra
/// modes and what they cost, predicted from neighbours in the source, of which none above the slice is used; and, in P and B slices, for each
/// of nine partitions the motion of least cost over the pictures of the lists. Costs are sums of absolute differences of luma samples; each
/// place in a list counts 4 more, and prediction from both lists 6. A vector is the best of a window of `range` whole samples to each side,
/// refined to quarter samples from half samples that the references hold. Without `t8x8` no 8x8 blocks are planned. `out.compared` is how many
/// vectors were compared, and `steps` rises by as many.
///
/// `out` has a place for each macroblock of the row. The references have the source's size, filled margins, sums and half planes, and those
/// of the lists are among them; the source's sums are filled. The range is from 1 to 32. In P and B slices list 0 has an entry, in B slices
/// list 1 too.
pub fn plan_row<L: Ledger>(
    source: &Picture,
    source_sums: &SumTable,
    lists: &Lists<'_>,
    kind: SliceKind,
    first_row: u32,
    row: u32,
    range: u32,
    t8x8: bool,
    out: &mut RowPlan,
    steps: &mut Steps<L>,
)
    requires width { source.now.y.width ≡ 16 * vec_len out.old.mbs }
    requires row { 16 * row + 16 ≤ source.now.y.height }
    requires first { first_row ≤ row }
    requires entries { HasEntries kind (length lists.now.list0.items) (length lists.now.list1.items) }
    requires inside { ArePlaces (length lists.now.held.now) lists.now.list0.items × ArePlaces (length lists.now.held.now) lists.now.list1.items }
    requires held { AreHeld source.now.y.width source.now.y.height lists.now.held.now }
    requires sums { IsTableOf source_sums.now source.now.y }
    requires range { (1 ≤ range) × (range ≤ 32) }
    ensures row { out.new.row ≡ row }
    ensures plans { out.new.mbs.items ≡ row_plans kind (search_of (vec_len out.old.mbs) lists.now (planes_of source.now) range) first_row t8x8 row }
    ensures compared { out.new.compared ≡ row_compared (used kind (search_of (vec_len out.old.mbs) lists.now (planes_of source.now) range)) row }
    ensures counted { steps.new ≡ steps.old + out.new.compared }
    ensures small { All SmallCosts out.new.mbs.items }
{
    lemma_lists_are_short(lists);
    out.row = row;
    out.compared = 0;
    let width = out.mbs.len() as u32;
    for column in 0..width {
        let planned = plan_at(
            source,
            source_sums,
            lists,
            kind,
            width,
            first_row,
            row,
            column,
            range,
            t8x8,
            steps,
        );
        out.mbs[column as usize] = planned.0;
        out.compared += planned.1;
    }
}
