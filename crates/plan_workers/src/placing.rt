// Plans, put at the places of their rows.
ghost use Rattle.std.specs.Prelude.{◌≡◌, ◌<◌, ◌≤◌, ℕ, length};
ghost use Rattle.picture_plans.specs.Planned.{AreRows};
ghost use Rattle.plan_workers.specs.Drawn.{AreBelow};
ghost use Rattle.plan_workers.specs.Pools.{Placed};

use enc_tables::RowPlan;
use std::mem;

/// Puts the first `filled` of some plans at the places of their rows. What stood there comes into their places.
pub fn place_plans(filled: usize, from: &mut [RowPlan], plans: &mut [RowPlan])
    requires filled { filled ≤ length from.old }
    requires below { AreBelow (length plans.old) filled from.old }
    ensures placed { Placed filled from.old plans.old plans.new }
    ensures wide { (across : ℕ) → AreRows across from.old → AreRows across plans.old → AreRows across from.new × AreRows across plans.new }
    ensures from_len { length from.new ≡ length from.old }
    ensures plans_len { length plans.new ≡ length plans.old }
{
    for k in 0..filled {
        let row = from[k].row as usize;
        mem::swap(&mut from[k], &mut plans[row]);
    }
}
