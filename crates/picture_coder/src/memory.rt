// Memory that is taken once, for pictures of one size.
ghost use Rattle.std.specs.Prelude.{◌≡◌, ◌≤◌, ◌*◌, vec_len, IfOk};
ghost use Rattle.ref_lists.specs.Held.{IsMade};
ghost use Rattle.picture_plans.specs.Planned.{AreRows};

use enc_tables::{MbKind, MbRecord, RowPlan};
use ref_lists::Reference;
use std::alloc::{AllocError as OutOfMemory, Global};

/// Plans in which nothing is planned, of `down` rows of `across` macroblocks.
pub fn blank_plans(alloc: Global, across: u32, down: u32) -> Result<Vec<RowPlan>, OutOfMemory>
    ensures count { IfOk result (λ plans. vec_len plans ≡ down) }
    ensures rows { IfOk result (λ plans. AreRows across plans.items) }
{
    let mut plans = Vec::with_capacity(alloc, down as usize)?;
    for row in 0..down {
        let mut plan = RowPlan::new(alloc, across)?;
        plan.row = row;
        plans.push(plan)?;
    }
    Ok(plans)
}

/// Records of which nothing is said.
pub fn blank_records(alloc: Global, count: u32) -> Result<Vec<MbRecord>, OutOfMemory>
    ensures count { IfOk result (λ records. vec_len records ≡ count) }
{
    vec![in alloc; MbRecord::blank(MbKind::Pcm, 0); count as usize]
}

/// A blank picture of `down` rows of `across` macroblocks, as later pictures refer to it.
pub fn blank_reference(alloc: Global, across: u32, down: u32) -> Result<Reference, OutOfMemory>
    requires across { (1 ≤ across) × (across ≤ 256) }
    requires down { (1 ≤ down) × (down ≤ 144) }
    ensures { IfOk result (λ r. IsMade (16 * across) (16 * down) r) }
{
    Reference::new(alloc, 16 * across, 16 * down)
}
