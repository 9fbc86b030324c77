// Threads that draw and plan at once.
ghost use Rattle.std.specs.Prelude.{◌≡◌, ◌<◌, ℕ, length, get_or};
ghost use Rattle.std.specs.List.{All};
ghost use Rattle.row_desk.specs.Desks.{rows_of};
ghost use Rattle.plan_workers.specs.Tasks.{IsTask, across_in};
ghost use Rattle.plan_workers.specs.declared.pool.Pool.{Pool};
ghost use Rattle.plan_workers.specs.Pools.{IsReady, PoolWorked};

use crate::drawing::plan_drawn;
use crate::pool::Pool;
use crate::task::PlanTask;
use enc_edge::Gate;
use row_desk::Desk;
use std::thread;
use std::thread::Threads;

// Fills one pool.
fn work<G: Gate + Sync>(desk: &Desk, task: &PlanTask<'_>, gate: &G, pool: &mut Pool)
    requires task { IsTask task.now }
    requires rows { rows_of desk.now ≡ task.now.down }
    requires ready { IsReady (across_in task.now) desk.now pool.old }
    ensures { PoolWorked task.now (G.let_in gate.now) desk.now pool.old pool.new }
{
    let Some(seat) = pool.seat.take() else {
        return;
    };
    let (filled, seat) = plan_drawn(desk, task, gate, seat, pool.plans.as_mut_slice());
    pool.filled = filled;
    pool.seat = Some(seat);
}

/// Fills the pools, each by a thread of its own where one can be started.
pub fn work_all<R: Threads + Sync, G: Gate + Sync>(
    rt: &R,
    desk: &Desk,
    task: &PlanTask<'_>,
    gate: &G,
    pools: &mut [Pool],
    threads: usize,
)
    requires threads { 0 < threads }
    requires task { IsTask task.now }
    requires rows { rows_of desk.now ≡ task.now.down }
    requires ready { All (IsReady (across_in task.now) desk.now) pools.old }
    ensures { (i : ℕ) (d : Pool) → i < length pools.old → PoolWorked task.now (G.let_in gate.now) desk.now (get_or pools.old i d) (get_or pools.new i d) }
{
    let fill = |_place: usize, pool: &mut Pool|
        requires task { IsTask task.now }
        requires rows { rows_of desk.now ≡ task.now.down }
        requires ready { IsReady (across_in task.now) desk.now pool.now }
    { work(desk, task, gate, pool) };
    thread::for_each_mut(rt, pools, threads, &fill);
}
