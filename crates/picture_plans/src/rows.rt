// The rows of a slice, planned.
ghost use Rattle.std.specs.Prelude.{◌≡◌, ◌≤◌, ◌<◌, ◌+◌, ◌*◌, ◌/◌, ◌%◌, ℕ, length, vec_len, get_or, IsTrue};
ghost use Rattle.block_sums.specs.Tables.{IsTableOf};
ghost use Rattle.enc_tables.specs.declared.plans.RowPlan.{RowPlan};
ghost use Rattle.picture_planes.specs.Pictures.{planes_of};
ghost use Rattle.ref_lists.specs.Entries.{ArePlaces};
ghost use Rattle.ref_lists.specs.Held.{AreHeld};
ghost use Rattle.spec_inter_plans.specs.InterPlans.{row_compared, picture_compared};
ghost use Rattle.spec_partitions.specs.InRange.{HasEntries};
ghost use Rattle.mode_choice.specs.Given.{search_of, used};
ghost use Rattle.picture_plans.specs.Planned.{AreRows, IsRowPlan, RowsPlanned};

use block_sums::SumTable;
use enc_edge::Gate;
use enc_tables::{RowPlan, SliceKind};
use mode_choice::plan_row_alone;
use picture_planes::Picture;
use ref_lists::Lists;

// Plans one row, as a row of a slice that begins with row `first`, and answers with how many vectors were compared for it.
fn plan_counted(
    source: &Picture,
    sums: &SumTable,
    lists: &Lists<'_>,
    kind: SliceKind,
    first: u32,
    row: u32,
    range: u32,
    t8x8: bool,
    out: &mut RowPlan,
) -> u64
    requires wide { vec_len out.old.mbs ≡ source.now.y.width / 16 }
    requires width { source.now.y.width % 16 ≡ 0 }
    requires row { 16 * row + 16 ≤ source.now.y.height }
    requires first { first ≤ row }
    requires entries { HasEntries kind (length lists.now.list0.items) (length lists.now.list1.items) }
    requires inside { ArePlaces (length lists.now.held.now) lists.now.list0.items × ArePlaces (length lists.now.held.now) lists.now.list1.items }
    requires held { AreHeld source.now.y.width source.now.y.height lists.now.held.now }
    requires sums { IsTableOf sums.now source.now.y }
    requires range { (1 ≤ range) × (range ≤ 32) }
    ensures planned { IsRowPlan kind (search_of (source.now.y.width / 16) lists.now (planes_of source.now) range) first t8x8 row out.new }
    ensures wide { vec_len out.new.mbs ≡ source.now.y.width / 16 }
    ensures compared { result ≡ row_compared (used kind (search_of (source.now.y.width / 16) lists.now (planes_of source.now) range)) row }
{
    plan_row_alone(source, sums, lists, kind, first, row, range, t8x8, out);
    out.compared
}

/// Plans rows `first` to `end` - 1, which are those of a slice, and answers with how many vectors were compared for them. The gate is
/// asked before each row. Lists have at most four entries; all else is as of `plan_picture`.
pub fn plan_slice<G: Gate + Sync>(
    source: &Picture,
    sums: &SumTable,
    lists: &Lists<'_>,
    kind: SliceKind,
    first: u32,
    end: u32,
    range: u32,
    t8x8: bool,
    plans: &mut [RowPlan],
    gate: &G,
) -> u64
    requires order { first ≤ end }
    requires end { end ≤ length plans.old }
    requires rows { AreRows (source.now.y.width / 16) plans.old }
    requires width { source.now.y.width % 16 ≡ 0 }
    requires height { 16 * end ≤ source.now.y.height }
    requires entries { HasEntries kind (length lists.now.list0.items) (length lists.now.list1.items) }
    requires few { (length lists.now.list0.items ≤ 4) × (length lists.now.list1.items ≤ 4) }
    requires inside { ArePlaces (length lists.now.held.now) lists.now.list0.items × ArePlaces (length lists.now.held.now) lists.now.list1.items }
    requires held { AreHeld source.now.y.width source.now.y.height lists.now.held.now }
    requires sums { IsTableOf sums.now source.now.y }
    requires range { (1 ≤ range) × (range ≤ 32) }
    ensures len { length plans.new ≡ length plans.old }
    ensures rows { AreRows (source.now.y.width / 16) plans.new }
    ensures planned { RowsPlanned kind (search_of (source.now.y.width / 16) lists.now (planes_of source.now) range) first end t8x8 plans.new }
    ensures above { (r : ℕ) (d : RowPlan) → r < first → get_or plans.new r d ≡ get_or plans.old r d }
    ensures compared { result + picture_compared (used kind (search_of (source.now.y.width / 16) lists.now (planes_of source.now) range)) first ≡ picture_compared (used kind (search_of (source.now.y.width / 16) lists.now (planes_of source.now) range)) end }
    ensures asked { (r : ℕ) → first ≤ r → r < end → IsTrue (G.let_in gate.now r) }
{
    let mut compared = 0;
    for row in first..end {
        gate.enter(row);
        compared += plan_counted(
            source,
            sums,
            lists,
            kind,
            first,
            row,
            range,
            t8x8,
            &mut plans[row as usize],
        );
    }
    compared
}
