// Seats, dealt to pools.
ghost use Rattle.std.specs.Prelude.{◌≡◌, ◌<◌, ◌≤◌, ℕ, length, get_or};
ghost use Rattle.row_desk.specs.Desks.{IsOf, rows_of, view_of};
ghost use Rattle.plan_workers.specs.declared.pool.Pool.{Pool};
ghost use Rattle.plan_workers.specs.Pools.{Dealt, dealt_view};

use crate::pool::Pool;
use row_desk::{Desk, Seat};

/// Gives each pool a seat, and answers with the first one.
pub fn deal(desk: &Desk, seat: Seat, pools: &mut [Pool]) -> Seat
    requires own { IsOf desk.now seat }
    requires first { view_of seat ≡ dealt_view (rows_of desk.now) 0 }
    requires few { length pools.old ≤ 144 }
    ensures own { IsOf desk.now result }
    ensures first { view_of result ≡ dealt_view (rows_of desk.now) (length pools.old) }
    ensures dealt { (i : ℕ) (d : Pool) → i < length pools.old → Dealt desk.now (get_or pools.old i d) (get_or pools.new i d) }
{
    let mut seat = seat;
    for i in 0..pools.len() {
        let (kept, new) = desk.split(seat);
        seat = kept;
        pools[i].seat = Some(new);
    }
    seat
}
