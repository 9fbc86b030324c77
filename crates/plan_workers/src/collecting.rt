// What threads have done, brought together.
ghost use Rattle.std.specs.Prelude.{◌≡◌, ◌<◌, ◌≤◌, ◌+◌, ℕ, Bool, length};
ghost use Rattle.std.specs.List.{All};
ghost use Rattle.picture_plans.specs.Planned.{AreRows};
ghost use Rattle.row_desk.specs.Desks.{IsOf, rows_of, view_of};
ghost use Rattle.plan_workers.specs.declared.task.PlanTask.{PlanTask};
ghost use Rattle.plan_workers.specs.Pools.{Collected, FitsRows, HasWorked, IsDone, dealt_view, room_of};

use crate::placing::place_plans;
use crate::pool::Pool;
use enc_tables::RowPlan;
use row_desk::{Desk, Seat};

// Takes the seat of a pool in, and puts its plans at the places of their rows.
fn collect_one(desk: &Desk, seat: Seat, pool: &mut Pool, plans: &mut [RowPlan]) -> Seat
    requires own { IsOf desk.now seat }
    requires done { IsDone desk.now pool.old }
    requires count { length plans.old ≡ rows_of desk.now }
    ensures own { IsOf desk.now result }
    ensures collected { (t : PlanTask) (let_in : ℕ → Bool) (n k room : ℕ) → HasWorked t let_in desk.now pool.old → Collected t let_in n k room (view_of seat) plans.old → Collected t let_in n (k + 1) (room + length pool.old.plans.items) (view_of result) plans.new }
    ensures fits { (across : ℕ) → FitsRows across pool.old → AreRows across plans.old → FitsRows across pool.new × AreRows across plans.new }
    ensures room { length pool.new.plans.items ≡ length pool.old.plans.items }
    ensures len { length plans.new ≡ length plans.old }
{
    let Some(other) = pool.seat.take() else {
        return seat;
    };
    place_plans(pool.filled, pool.plans.as_mut_slice(), plans);
    desk.merge(seat, other)
}

/// Takes the seats of all pools in, and puts their plans at the places of their rows; answers with the seat that has
/// all others.
pub fn collect(desk: &Desk, seat: Seat, pools: &mut [Pool], plans: &mut [RowPlan]) -> Seat
    requires own { IsOf desk.now seat }
    requires first { view_of seat ≡ dealt_view (rows_of desk.now) (length pools.old) }
    requires done { All (IsDone desk.now) pools.old }
    requires count { length plans.old ≡ rows_of desk.now }
    ensures own { IsOf desk.now result }
    ensures collected { (t : PlanTask) (let_in : ℕ → Bool) → All (HasWorked t let_in desk.now) pools.old → Collected t let_in (length pools.old) (length pools.old) (room_of pools.old) (view_of result) plans.new }
    ensures fits { (across : ℕ) → All (FitsRows across) pools.old → AreRows across plans.old → All (FitsRows across) pools.new × AreRows across plans.new }
    ensures room { room_of pools.new ≡ room_of pools.old }
    ensures pool_count { length pools.new ≡ length pools.old }
    ensures len { length plans.new ≡ length plans.old }
{
    let mut seat = seat;
    for i in 0..pools.len() {
        seat = collect_one(desk, seat, &mut pools[i], plans);
    }
    seat
}
