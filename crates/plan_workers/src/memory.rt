// Memory that is taken once, for pictures of one size.
ghost use Rattle.std.specs.Prelude.{◌≡◌, ◌≤◌, length, vec_len, IfOk};
ghost use Rattle.picture_plans.specs.Planned.{AreRows};
ghost use Rattle.plan_workers.specs.Pools.{ArePools, FitsRows};

use crate::pool::Pool;
use enc_tables::RowPlan;
use std::alloc::{AllocError as OutOfMemory, Global};

/// Plans in which nothing is planned, of so many rows of `across` macroblocks.
pub fn blank_plans(alloc: Global, across: u32, count: u32) -> Result<Vec<RowPlan>, OutOfMemory>
    ensures count { IfOk result (λ plans. vec_len plans ≡ count) }
    ensures rows { IfOk result (λ plans. AreRows across plans.items) }
{
    let mut plans = Vec::with_capacity(alloc, count as usize)?;
    for row in 0..count {
        let mut plan = RowPlan::new(alloc, across)?;
        plan.row = row;
        plans.push(plan)?;
    }
    Ok(plans)
}

// A pool of so many plans.
fn blank_pool(alloc: Global, across: u32, count: u32) -> Result<Pool, OutOfMemory>
    requires short { count ≤ 289 }
    ensures fits { IfOk result (FitsRows across) }
    ensures count { IfOk result (λ pool. length pool.plans.items ≡ count) }
{
    let plans = blank_plans(alloc, across, count)?;
    Ok(Pool {
        plans,
        filled: 0,
        seat: None,
    })
}

/// Pools for planning pictures of `down` rows of `across` macroblocks by so many threads: one for each thread, of which
/// there are no more than rows, and none where one thread plans alone. Each holds about twice its share of the rows, and
/// together they hold more plans than there are rows.
pub fn make_pools(
    alloc: Global,
    across: u32,
    down: u32,
    workers: u32,
) -> Result<Vec<Pool>, OutOfMemory>
    requires down { (1 ≤ down) × (down ≤ 144) }
    ensures pools { IfOk result (λ pools. ArePools across down pools.items) }
{
    let used = workers.min(down);
    if used < 2 {
        return Ok(Vec::new(alloc));
    }
    let count = 2 * down.div_ceil(used) + 1;
    let mut pools = Vec::with_capacity(alloc, used as usize)?;
    for _ in 0..used {
        let pool = blank_pool(alloc, across, count)?;
        pools.push(pool)?;
    }
    Ok(pools)
}
