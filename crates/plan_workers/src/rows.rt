// One row, planned as a row of its slice.
ghost use Rattle.std.specs.Prelude.{◌≡◌, ◌≤◌, ◌<◌, ◌+◌, ◌*◌, ◌-◌, ◌/◌, ℕ, length, vec_len};
ghost use Rattle.picture_plans.specs.Planned.{row_at};
ghost use Rattle.plan_workers.specs.Tasks.{IsTask, across_in, compared_in};
ghost use Rattle.plan_workers.specs.Drawn.{IsPlanOf};

use crate::task::PlanTask;
use enc_tables::RowPlan;
use mode_choice::plan_row_alone;
use picture_plans::slice_start;
use ref_lists::Lists;

/// Lists have at most four entries.
pub fn lemma_lists_are_short(lists: &Lists<'_>)
    ensures { (length lists.now.list0.items ≤ 4) × (length lists.now.list1.items ≤ 4) }
{
    let _first = lists.list0.as_slice();
    let _second = lists.list1.as_slice();
}

// The first row of the slice that a row is in.
fn first_row(row: u32, slices: u32, down: u32) -> u32
    requires some { 0 < slices }
    requires few { slices ≤ down }
    requires down { down ≤ 144 }
    requires row { row < down }
    ensures before { result ≤ row }
    ensures first { (k : ℕ) → row_at slices down k ≤ row → row < row_at slices down (k + 1) → result ≡ row_at slices down k }
{
    let slice = ((row + 1) * slices - 1) / down;
    slice_start(slice, slices, down)
}

/// Plans a row, as a row of its slice, and answers with how many vectors were compared for it.
pub fn plan_one(task: &PlanTask<'_>, row: u32, out: &mut RowPlan) -> u64
    requires task { IsTask task.now }
    requires row { row < task.now.down }
    requires wide { vec_len out.old.mbs ≡ across_in task.now }
    ensures row { out.new.row ≡ row }
    ensures plan { IsPlanOf task.now row out.new }
    ensures wide { vec_len out.new.mbs ≡ across_in task.now }
    ensures compared { result ≡ compared_in task.now row }
    ensures small { result ≤ 11214028800 }
{
    lemma_lists_are_short(task.lists);
    let first = first_row(row, task.slices, task.down);
    plan_row_alone(
        task.source,
        task.sums,
        task.lists,
        task.kind,
        first,
        row,
        task.range,
        task.t8x8,
        out,
    );
    out.compared
}
