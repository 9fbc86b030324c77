// The macroblock's kind of least cost.
ghost use Rattle.std.specs.Prelude.{◌≡◌, ◌≤◌, ◌<◌, ◌+◌, ◌-◌, ◌*◌, ◌/◌, ◌^◌, ℕ, [], ◌∷◌, slice_index};
ghost use Rattle.enc_tables.specs.Choice.{SmallCosts, choice, first_least, lesser, cost_of, lambda, part_cost, in_one, in_rows, in_columns, in_quarters};
ghost use Rattle.enc_tables.specs.declared.records.MbKind.TheVariants as kinds;

use crate::records::{MbKind, MbPlan, SliceKind};

/// The kind of least cost for a macroblock of a slice, by its plan, and that cost; the first where several cost the
/// same. Skipped and direct macroblocks aren't among them, nor is Intra 8x8 without `t8x8`. A kind costs what its parts
/// cost and some bits, and a bit counts 2 ^ (max(0, `qp` − 12) / 6). `qp` is at most 51, and each cost in the plan is
/// below 2 ^ 24.
#[tactic(auto, unfolding(crate::specs::Choice::choice))]
pub fn choose(kind: SliceKind, plan: &MbPlan, qp: u8, t8x8: bool) -> (MbKind, u32)
    requires qp { qp ≤ 51 }
    requires costs { SmallCosts plan.now }
    ensures { result ≡ choice kind plan.now qp t8x8 }
{
    let bit = bit_cost(qp);
    let intra16 = (MbKind::Intra16, intra(plan, 0) + 8 * bit);
    let intra8 = (MbKind::Intra8, intra(plan, 1) + 14 * bit);
    let intra4 = (MbKind::Intra4, intra(plan, 2) + 24 * bit);
    let first = match kind {
        SliceKind::I => intra16,
        SliceKind::P => better(best_of_p(plan, bit), intra16),
        SliceKind::B => better(best_of_b(plan, bit), intra16),
    };
    if t8x8 {
        return better(better(first, intra8), intra4);
    }
    better(first, intra4)
}

// What a bit counts.
#[inline]
fn bit_cost(qp: u8) -> u32
    requires { qp ≤ 51 }
    ensures value { result ≡ lambda qp }
    ensures small { result ≤ 64 }
{
    1 << (qp.saturating_sub(12) / 6)
}

#[inline]
#[tactic(auto, unfolding(crate::specs::Choice::lesser))]
fn better(best: (MbKind, u32), next: (MbKind, u32)) -> (MbKind, u32)
    ensures { result ≡ lesser cost_of best next }
{
    if next.1 < best.1 { next } else { best }
}

#[inline]
fn intra(plan: &MbPlan, k: usize) -> u32
    requires place { k < 3 }
    requires costs { SmallCosts plan.now }
    ensures value { result ≡ slice_index plan.now.intra k }
    ensures small { result < 2 ^ 24 }
{
    plan.intra[k]
}

#[inline]
fn part(plan: &MbPlan, k: usize) -> u32
    requires place { k < 9 }
    requires costs { SmallCosts plan.now }
    ensures value { result ≡ part_cost plan.now k }
    ensures small { result < 2 ^ 24 }
{
    plan.parts[k].cost
}

// The best of the kinds of inter prediction in P slices.
fn best_of_p(plan: &MbPlan, bit: u32) -> (MbKind, u32)
    requires costs { SmallCosts plan.now }
    requires bit { bit ≤ 64 }
    ensures { result ≡ first_least cost_of (in_one plan.now kinds.P16 2 bit)
        (in_rows plan.now kinds.P16x8 5 bit ∷ in_columns plan.now kinds.P8x16 5 bit ∷ in_quarters plan.now kinds.P8x8 9 bit ∷ []) }
{
    let whole = (MbKind::P16, part(plan, 0) + 2 * bit);
    let rows = (MbKind::P16x8, part(plan, 1) + part(plan, 2) + 5 * bit);
    let columns = (MbKind::P8x16, part(plan, 3) + part(plan, 4) + 5 * bit);
    let quarters = part(plan, 5) + part(plan, 6) + part(plan, 7) + part(plan, 8);
    better(
        better(better(whole, rows), columns),
        (MbKind::P8x8, quarters + 9 * bit),
    )
}

// The best of the kinds of inter prediction in B slices.
fn best_of_b(plan: &MbPlan, bit: u32) -> (MbKind, u32)
    requires costs { SmallCosts plan.now }
    requires bit { bit ≤ 64 }
    ensures { result ≡ first_least cost_of (in_one plan.now kinds.B16 3 bit)
        (in_rows plan.now kinds.B16x8 8 bit ∷ in_columns plan.now kinds.B8x16 8 bit ∷ in_quarters plan.now kinds.B8x8 12 bit ∷ []) }
{
    let whole = (MbKind::B16, part(plan, 0) + 3 * bit);
    let rows = (MbKind::B16x8, part(plan, 1) + part(plan, 2) + 8 * bit);
    let columns = (MbKind::B8x16, part(plan, 3) + part(plan, 4) + 8 * bit);
    let quarters = part(plan, 5) + part(plan, 6) + part(plan, 7) + part(plan, 8);
    better(
        better(better(whole, rows), columns),
        (MbKind::B8x8, quarters + 12 * bit),
    )
}
