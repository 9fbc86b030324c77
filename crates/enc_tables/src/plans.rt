// Plans of macroblocks and of their rows.
ghost use Rattle.std.specs.Prelude.{◌≡◌, ◌≤◌, ℕ, IfOk, replicate};
ghost use Rattle.enc_tables.specs.Plans.{blank_plan};

use crate::records::{MbPlan, Motion, PartPlan};
use std::alloc::{AllocError as OutOfMemory, Global};

/// The plans of a row of macroblocks, and how many vectors were compared for them.
#[derive(Drop)]
pub struct RowPlan {
    /// The row, from 0 at the top.
    pub row: u32,
    /// How many vectors were compared.
    pub compared: u64,
    /// The macroblocks' plans, from left to right.
    pub mbs: Vec<MbPlan>,
}

impl RowPlan {
    /// A blank row of `width_mbs` macroblocks. The answer `Err` means that memory was wanting.
    pub fn new(alloc: Global, width_mbs: u32) -> Result<RowPlan, OutOfMemory>
        ensures row { IfOk result (λ p. p.row ≡ 0) }
        ensures compared { IfOk result (λ p. p.compared ≡ 0) }
        ensures blank { IfOk result (λ p. p.mbs.items ≡ replicate width_mbs blank_plan) }
    {
        let mbs = vec![in alloc; blank(); width_mbs as usize]?;
        Ok(RowPlan {
            row: 0,
            compared: 0,
            mbs,
        })
    }
}

// A plan in which nothing is planned.
#[tactic(auto, unfolding(crate::specs::Plans::blank_plan))]
fn blank() -> MbPlan
    ensures { result ≡ blank_plan }
{
    MbPlan {
        mode16: 0,
        modes8: [0; 4],
        modes4: [0; 16],
        chroma_mode: 0,
        intra: [0; 3],
        parts: [PartPlan {
            motion: Motion::NONE,
            cost: 0,
        }; 9],
    }
}
