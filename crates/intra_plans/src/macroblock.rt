// The intra part of a macroblock's plan.
ghost use Rattle.std.specs.Prelude.{◌≡◌, ◌≤◌, ◌<◌, ◌+◌, ◌*◌, ◌/◌, ◌%◌, cond, replicate, ℕ};
ghost use Rattle.enc_tables.specs.Plans.{blank_part};
ghost use Rattle.picture_planes.specs.Samples.{samples_of};
ghost use Rattle.picture_planes.specs.Pictures.{planes_of};
ghost use Rattle.enc_tables.specs.Choice.{SmallCosts};
ghost use Rattle.spec_intra.specs.Block.{line};
ghost use Rattle.spec_choice.specs.IntraPlans.{best4_of, best8_of, total, intra_plan};
ghost use Rattle.intra_plans.specs.Inside.{Inside};

use crate::blocks::{choose_chroma, choose4, choose8, choose16};
use enc_tables::{MbPlan, Motion, PartPlan};
use intra_pred::Avail;
use picture_planes::{Picture, Plane};
use plane_blocks::{near_block4, near_block8, near_macroblock};

// The modes of a macroblock's 4x4 blocks, and what they cost together.
#[derive(Clone, Copy)]
struct Modes4 {
    modes: [u8; 16],
    cost: u32,
}

// The modes of a macroblock's 8x8 blocks, and what they cost together.
#[derive(Clone, Copy)]
struct Modes8 {
    modes: [u8; 4],
    cost: u32,
}

#[tactic(auto, unfolding(spec_choice::specs::IntraPlans::total, spec_basics::specs::Sums::sum_below))]
fn plan4(luma: &Plane, mb: &Avail, x: u32, y: u32) -> Modes4
    requires { Inside luma.now mb.now x y }
    ensures modes { result.modes ≡ line 16 (λ b. (best4_of luma.now.width (samples_of luma.now) mb.now x y b).mode) }
    ensures cost { result.cost ≡ total 16 (λ b. (best4_of luma.now.width (samples_of luma.now) mb.now x y b).cost) }
    ensures small { result.cost ≤ 65280 }
{
    let mut modes = [0; 16];
    let mut cost = 0;
    for b in 0..16u32 {
        let column = 2 * (b / 4 % 2) + b % 2;
        let row = 2 * (b / 8) + b / 2 % 2;
        let near = near_block4(mb, column, row);
        let best = choose4(luma, &near, x + 4 * column, y + 4 * row);
        modes[b as usize] = best.mode;
        cost += best.cost;
    }
    Modes4 { modes, cost }
}

#[tactic(auto, unfolding(spec_choice::specs::IntraPlans::total, spec_basics::specs::Sums::sum_below))]
fn plan8(luma: &Plane, mb: &Avail, x: u32, y: u32) -> Modes8
    requires { Inside luma.now mb.now x y }
    ensures modes { result.modes ≡ line 4 (λ k. (best8_of luma.now.width (samples_of luma.now) mb.now x y k).mode) }
    ensures cost { result.cost ≡ total 4 (λ k. (best8_of luma.now.width (samples_of luma.now) mb.now x y k).cost) }
    ensures small { result.cost ≤ 65280 }
{
    let mut modes = [0; 4];
    let mut cost = 0;
    for k in 0..4u32 {
        let column = k % 2;
        let row = k / 2;
        let near = near_block8(mb, column, row);
        let best = choose8(luma, &near, x + 8 * column, y + 8 * row);
        modes[k as usize] = best.mode;
        cost += best.cost;
    }
    Modes8 { modes, cost }
}

// The plan of the 8x8 blocks where there may be any.
fn quarters(luma: &Plane, mb: &Avail, x: u32, y: u32, t8x8: bool) -> Modes8
    requires { Inside luma.now mb.now x y }
    ensures modes { result.modes ≡ cond t8x8 (line 4 (λ k. (best8_of luma.now.width (samples_of luma.now) mb.now x y k).mode)) (replicate 4 0) }
    ensures cost { result.cost ≡ cond t8x8 (total 4 (λ k. (best8_of luma.now.width (samples_of luma.now) mb.now x y k).cost)) 0 }
    ensures small { result.cost ≤ 65280 }
{
    if t8x8 {
        plan8(luma, mb, x, y)
    } else {
        Modes8 {
            modes: [0; 4],
            cost: 0,
        }
    }
}

fn no_parts() -> [PartPlan; 9]
    ensures { result ≡ replicate 9 blank_part }
{
    [PartPlan {
        motion: Motion::NONE,
        cost: 0,
    }; 9]
}

/// The intra part of a macroblock's plan. The macroblock is in column `column` of row `row`; the picture has `width`
/// macroblocks in a row, and the slice begins with row `first_row`.
pub fn plan_macroblock(
    source: &Picture,
    width: u32,
    first_row: u32,
    row: u32,
    column: u32,
    t8x8: bool,
) -> MbPlan
    requires width { source.now.y.width ≡ 16 * width }
    requires row { 16 * row + 16 ≤ source.now.y.height }
    requires column { column < width }
    requires first { first_row ≤ row }
    ensures plan { result ≡ intra_plan width first_row t8x8 (planes_of source.now) row column }
    ensures small { SmallCosts result }
{
    let mb = near_macroblock(width, first_row, row, column);
    let whole = choose16(&source.y, &mb, 16 * column, 16 * row);
    let quarters = quarters(&source.y, &mb, 16 * column, 16 * row, t8x8);
    let small = plan4(&source.y, &mb, 16 * column, 16 * row);
    let chroma = choose_chroma(&source.cb, &source.cr, &mb, 8 * column, 8 * row);
    let modes8 = quarters.modes;
    let modes4 = small.modes;
    let intra = [whole.cost, quarters.cost, small.cost];
    let parts = no_parts();
    MbPlan {
        mode16: whole.mode,
        modes8,
        modes4,
        chroma_mode: chroma.mode,
        intra,
        parts,
    }
}
