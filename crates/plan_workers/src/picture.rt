// All rows of a picture, planned by threads.
ghost use Rattle.std.specs.Prelude.{◌≡◌, ◌≤◌, ◌<◌, ◌^◌, ℕ, length, IsTrue};
ghost use Rattle.spec_inter_plans.specs.InterPlans.{picture_compared};
ghost use Rattle.mode_choice.specs.Given.{used};
ghost use Rattle.picture_plans.specs.Planned.{AreRows, SlicesPlanned};
ghost use Rattle.row_desk.specs.Desks.{IsOf, rows_of, view_of};
ghost use Rattle.plan_workers.specs.Tasks.{IsTask, across_in, search_in};
ghost use Rattle.plan_workers.specs.Pools.{ArePools, dealt_view};

use crate::collecting::collect;
use crate::dealing::deal;
use crate::pool::Pool;
use crate::rows::lemma_lists_are_short;
use crate::task::PlanTask;
use crate::working::work_all;
use enc_edge::Gate;
use enc_tables::RowPlan;
use picture_plans::plan_picture;
use row_desk::{Desk, Seat};
use std::alloc::Global;
use std::thread::Threads;

// Plans all rows by the caller's own thread.
fn plan_alone<G: Gate + Sync>(task: &PlanTask<'_>, gate: &G, plans: &mut [RowPlan]) -> u64
    requires task { IsTask task.now }
    requires count { length plans.old ≡ task.now.down }
    requires rows { AreRows (across_in task.now) plans.old }
    ensures len { length plans.new ≡ length plans.old }
    ensures rows { AreRows (across_in task.now) plans.new }
    ensures planned { SlicesPlanned task.now.kind (search_in task.now) task.now.slices task.now.down task.now.t8x8 task.now.slices plans.new }
    ensures compared { result ≡ picture_compared (used task.now.kind (search_in task.now)) task.now.down }
    ensures small { result ≤ 2 ^ 34 }
    ensures asked { (r : ℕ) → r < task.now.down → IsTrue (G.let_in gate.now r) }
{
    plan_picture(
        task.source,
        task.sums,
        task.lists,
        task.kind,
        task.slices,
        task.range,
        task.t8x8,
        plans,
        gate,
    )
}

// Plans all rows by as many threads as there are pools, which draw them at this desk.
fn plan_at<R: Threads + Sync, G: Gate + Sync>(
    rt: &R,
    desk: Desk,
    seat: Seat,
    task: &PlanTask<'_>,
    gate: &G,
    pools: &mut [Pool],
    plans: &mut [RowPlan],
) -> u64
    requires task { IsTask task.now }
    requires desk { rows_of desk ≡ task.now.down }
    requires own { IsOf desk seat }
    requires first { view_of seat ≡ dealt_view (rows_of desk) 0 }
    requires count { length plans.old ≡ task.now.down }
    requires rows { AreRows (across_in task.now) plans.old }
    requires some { 0 < length pools.old }
    requires pools { ArePools (across_in task.now) task.now.down pools.old }
    ensures len { length plans.new ≡ length plans.old }
    ensures rows { AreRows (across_in task.now) plans.new }
    ensures planned { SlicesPlanned task.now.kind (search_in task.now) task.now.slices task.now.down task.now.t8x8 task.now.slices plans.new }
    ensures compared { result ≡ picture_compared (used task.now.kind (search_in task.now)) task.now.down }
    ensures small { result ≤ 2 ^ 34 }
    ensures asked { (r : ℕ) → r < task.now.down → IsTrue (G.let_in gate.now r) }
    ensures pool_count { length pools.new ≡ length pools.old }
    ensures pools { ArePools (across_in task.now) task.now.down pools.new }
{
    lemma_lists_are_short(task.lists);
    let first = deal(&desk, seat, pools);
    let threads = pools.len();
    work_all(rt, &desk, task, gate, pools, threads);
    let all = collect(&desk, first, pools, plans);
    desk.close(all).total
}

/// Plans all rows of the task's picture, each as a row of its slice, by as many threads as there are pools, and answers
/// with how many vectors were compared. A thread that is free draws the next row, and asks the gate before it plans it.
///
/// Where there is no pool, or no memory for a desk, the caller's own thread plans all rows, and the answer is the same.
/// `plans` has a place for each row, and the pools were made for such pictures.
pub fn plan_by_workers<R: Threads + Sync, G: Gate + Sync>(
    rt: &R,
    alloc: Global,
    task: &PlanTask<'_>,
    gate: &G,
    pools: &mut [Pool],
    plans: &mut [RowPlan],
) -> u64
    requires task { IsTask task.now }
    requires count { length plans.old ≡ task.now.down }
    requires rows { AreRows (across_in task.now) plans.old }
    requires pools { ArePools (across_in task.now) task.now.down pools.old }
    ensures len { length plans.new ≡ length plans.old }
    ensures rows { AreRows (across_in task.now) plans.new }
    ensures planned { SlicesPlanned task.now.kind (search_in task.now) task.now.slices task.now.down task.now.t8x8 task.now.slices plans.new }
    ensures compared { result ≡ picture_compared (used task.now.kind (search_in task.now)) task.now.down }
    ensures small { result ≤ 2 ^ 34 }
    ensures asked { (r : ℕ) → r < task.now.down → IsTrue (G.let_in gate.now r) }
    ensures pool_count { length pools.new ≡ length pools.old }
    ensures pools { ArePools (across_in task.now) task.now.down pools.new }
{
    if pools.is_empty() {
        return plan_alone(task, gate, plans);
    }
    let Ok((desk, seat)) = Desk::open(alloc, task.down) else {
        return plan_alone(task, gate, plans);
    };
    plan_at(rt, desk, seat, task, gate, pools, plans)
}
