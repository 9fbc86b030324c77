// The plans of a row of macroblocks.
ghost use Rattle.std.specs.Prelude.{◌≡◌, ◌≤◌, ◌<◌, ◌+◌, ◌*◌, ℕ, vec_len};
ghost use Rattle.std.specs.List.{All};
ghost use Rattle.enc_tables.specs.Choice.{SmallCosts};
ghost use Rattle.picture_planes.specs.Pictures.{planes_of};
ghost use Rattle.spec_choice.specs.IntraPlans.{intra_plans};

use crate::macroblock::plan_macroblock;
use enc_tables::{RowPlan, SliceKind};
use picture_planes::Picture;

/// Plans row `row` of macroblocks of the source: for each macroblock the best intra modes and what they cost, as sums
/// of absolute differences of the source and its prediction from neighbours in the source. The slice begins with row
/// `first_row`; nothing above it is used. Without `t8x8` no 8x8 blocks are planned. `out` has to have a place for
/// each macroblock of the row.
pub fn plan_row(
    source: &Picture,
    _kind: SliceKind,
    first_row: u32,
    row: u32,
    t8x8: bool,
    out: &mut RowPlan,
)
    requires width { source.now.y.width ≡ 16 * vec_len out.old.mbs }
    requires row { 16 * row + 16 ≤ source.now.y.height }
    requires first { first_row ≤ row }
    ensures row { out.new.row ≡ row }
    ensures plans { out.new.mbs.items ≡ intra_plans (vec_len out.old.mbs) first_row t8x8 (planes_of source.now) row }
    ensures small { All SmallCosts out.new.mbs.items }
{
    out.row = row;
    let width = out.mbs.len() as u32;
    for column in 0..width {
        let plan = plan_macroblock(source, width, first_row, row, column, t8x8);
        out.mbs[column as usize] = plan;
    }
}
