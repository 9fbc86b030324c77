// All rows of a picture, planned.
ghost use Rattle.std.specs.Prelude.{◌≡◌, ◌≤◌, ◌<◌, ◌+◌, ◌*◌, ◌/◌, ◌%◌, ◌^◌, ℕ, length, get_or, IsTrue};
ghost use Rattle.enc_tables.specs.declared.plans.RowPlan.{RowPlan};
ghost use Rattle.block_sums.specs.Tables.{IsTableOf};
ghost use Rattle.picture_planes.specs.Pictures.{planes_of};
ghost use Rattle.ref_lists.specs.Entries.{ArePlaces};
ghost use Rattle.ref_lists.specs.Held.{AreHeld};
ghost use Rattle.spec_inter_plans.specs.InterPlans.{picture_compared};
ghost use Rattle.spec_partitions.specs.InRange.{HasEntries};
ghost use Rattle.mode_choice.specs.Given.{search_of, used};
ghost use Rattle.picture_plans.specs.Planned.{AreRows, SlicesPlanned};

use crate::rows::plan_slice;
use crate::slices::slice_start;
use block_sums::SumTable;
use enc_edge::Gate;
use enc_tables::{RowPlan, SliceKind};
use picture_planes::Picture;
use ref_lists::Lists;

// Lists have at most four entries.
fn lemma_lists_are_short(lists: &Lists<'_>)
    ensures { (length lists.now.list0.items ≤ 4) × (length lists.now.list1.items ≤ 4) }
{
    let _first = lists.list0.as_slice();
    let _second = lists.list1.as_slice();
}

/// Plans all rows of a picture of this kind, each as a row of its slice, and answers with how many vectors were compared. The gate is asked
/// before each row. `plans` has a place for each row. Source and references have one size, in whole macroblocks; the references are ready,
/// and those of the lists are among them; `sums` is the table of the source's luma plane. The range is from 1 to 32. In P and B pictures
/// list 0 has an entry, in B pictures list 1 too.
pub fn plan_picture<G: Gate + Sync>(
    source: &Picture,
    sums: &SumTable,
    lists: &Lists<'_>,
    kind: SliceKind,
    slices: u32,
    range: u32,
    t8x8: bool,
    plans: &mut [RowPlan],
    gate: &G,
) -> u64
    requires some { 0 < slices }
    requires few { slices ≤ length plans.old }
    requires down { length plans.old ≤ 144 }
    requires rows { AreRows (source.now.y.width / 16) plans.old }
    requires width { source.now.y.width % 16 ≡ 0 }
    requires height { source.now.y.height ≡ 16 * length plans.old }
    requires entries { HasEntries kind (length lists.now.list0.items) (length lists.now.list1.items) }
    requires inside { ArePlaces (length lists.now.held.now) lists.now.list0.items × ArePlaces (length lists.now.held.now) lists.now.list1.items }
    requires held { AreHeld source.now.y.width source.now.y.height lists.now.held.now }
    requires sums { IsTableOf sums.now source.now.y }
    requires range { (1 ≤ range) × (range ≤ 32) }
    ensures len { length plans.new ≡ length plans.old }
    ensures rows { AreRows (source.now.y.width / 16) plans.new }
    ensures planned { SlicesPlanned kind (search_of (source.now.y.width / 16) lists.now (planes_of source.now) range) slices (length plans.old) t8x8 slices plans.new }
    ensures compared { result ≡ picture_compared (used kind (search_of (source.now.y.width / 16) lists.now (planes_of source.now) range)) (length plans.old) }
    ensures small { result ≤ 2 ^ 34 }
    ensures asked { (r : ℕ) → r < length plans.old → IsTrue (G.let_in gate.now r) }
{
    lemma_lists_are_short(lists);
    let down = plans.len() as u32;
    let mut compared = 0;
    for slice in 0..slices {
        let first = slice_start(slice, slices, down);
        let end = slice_start(slice + 1, slices, down);
        compared += plan_slice(
            source, sums, lists, kind, first, end, range, t8x8, plans, gate,
        );
    }
    compared
}
