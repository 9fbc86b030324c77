// What a thread does: it draws rows, and plans them.
ghost use Rattle.std.specs.Prelude.{◌≡◌, ◌≤◌, length, vec_len};
ghost use Rattle.picture_plans.specs.Planned.{AreRows};
ghost use Rattle.row_desk.specs.Desks.{IsOf, rows_of, view_of};
ghost use Rattle.plan_workers.specs.Tasks.{IsTask, across_in};
ghost use Rattle.plan_workers.specs.Drawn.{Worked, begun};

use crate::rows::plan_one;
use crate::task::PlanTask;
use enc_edge::Gate;
use enc_tables::RowPlan;
use row_desk::{Desk, Seat};

/// Draws rows and plans them, until there is no further row or no further place for a plan, and answers with how many
/// were planned and with the seat. The gate is asked before each row.
pub fn plan_drawn<G: Gate + Sync>(
    desk: &Desk,
    task: &PlanTask<'_>,
    gate: &G,
    seat: Seat,
    plans: &mut [RowPlan],
) -> (usize, Seat)
    requires task { IsTask task.now }
    requires rows { rows_of desk.now ≡ task.now.down }
    requires own { IsOf desk.now seat }
    requires begun { view_of seat ≡ begun (rows_of desk.now) }
    requires wide { AreRows (across_in task.now) plans.old }
    requires short { length plans.old ≤ 289 }
    ensures own { IsOf desk.now result.1 }
    ensures worked { Worked task.now (G.let_in gate.now) (view_of result.1) plans.new result.0 }
    ensures wide { AreRows (across_in task.now) plans.new }
    ensures count { length plans.new ≡ length plans.old }
{
    let mut seat = seat;
    let mut filled = 0;
    while filled < plans.len() {
        let (drawn, kept) = desk.draw(seat);
        seat = kept;
        let Some(row) = drawn else {
            return (filled, seat);
        };
        gate.enter(row);
        let compared = plan_one(task, row, &mut plans[filled]);
        seat = desk.tally(seat, compared);
        filled += 1;
    }
    (filled, seat)
}
