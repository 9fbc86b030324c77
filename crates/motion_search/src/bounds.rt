// Bounds of candidates from sums of 8x8 parts.
ghost use Rattle.std.specs.Prelude.{◌≡◌, ◌≤◌, ◌<◌, ◌+◌, ◌*◌, ℕ, slice_index, if◌then◌else◌, IsTrue};
ghost use Rattle.std.specs.Int.{abs_diff};
ghost use Rattle.block_sums.specs.Tables.{IsTableOf, sum_at, table_width, table_height};
ghost use Rattle.picture_planes.specs.declared.plane.Plane.{Plane};
ghost use Rattle.spec_search.specs.Scan.{dx_of, dy_of};
ghost use Rattle.motion_search.specs.Planes.{bounds, OwnSums, AreSmall, IsNear, IsBlockIn};

use block_sums::SumTable;
use spec_search::{Block, Spot};

// The sum of a part, where the block has it.
#[inline(always)]
fn sum_where(sums: &SumTable, has_part: bool, column: usize, row: usize) -> u32
    requires across { IsTrue has_part → column + 8 ≤ table_width sums.now }
    requires down { IsTrue has_part → row + 8 ≤ table_height sums.now }
    ensures value { IsTrue has_part → result ≡ sum_at sums.now column row }
    ensures small { result < 65536 }
{
    if has_part {
        sums.sum_from(column, row)
    } else {
        0
    }
}

// How far the sums of a part are apart, where the block has it.
#[inline(always)]
fn apart_where(own: u32, sums: &SumTable, has_part: bool, column: usize, row: usize) -> u32
    requires small { own < 65536 }
    requires across { IsTrue has_part → column + 8 ≤ table_width sums.now }
    requires down { IsTrue has_part → row + 8 ≤ table_height sums.now }
    ensures value { result ≡ (if has_part then abs_diff own (sum_at sums.now column row) else 0) }
    ensures small { result < 65536 }
{
    if has_part {
        own.abs_diff(sums.sum_from(column, row))
    } else {
        0
    }
}

/// The sums of the block's 8x8 parts: the part in column k and row l at 2l + k.
pub fn own_sums(sums: &SumTable, block: Block) -> [u32; 4]
    requires { IsBlockIn sums.now.width sums.now.height block }
    ensures value { (source : Plane) → IsTableOf sums.now source → OwnSums source block result }
    ensures small { AreSmall result }
{
    let column = (block.x + sums.pad) as usize;
    let row = (block.y + sums.pad) as usize;
    let is_wide = block.w == 16;
    let is_high = block.h == 16;
    let first = sums.sum_from(column, row);
    let right = sum_where(sums, is_wide, column + 8, row);
    let below = sum_where(sums, is_high, column, row + 8);
    let last = sum_where(sums, is_wide & is_high, column + 8, row + 8);
    [first, right, below, last]
}

/// How far the sums of the block's 8x8 parts are from those that lie the vector away, all parts together: the block's
/// sum of absolute differences is no less.
#[inline(always)]
pub fn bound(own: &[u32; 4], sums: &SumTable, block: Block, spot: Spot) -> u32
    requires own { AreSmall own.now }
    requires margin { sums.now.pad ≡ 40 }
    requires inside { IsBlockIn sums.now.width sums.now.height block }
    requires near { IsNear spot }
    ensures { (source reference : Plane) → OwnSums source block own.now → IsTableOf sums.now reference → result ≡ bounds source reference block (dx_of spot) (dy_of spot) }
{
    let column = (block.x + sums.pad) as usize + spot.column - spot.ring;
    let row = (block.y + sums.pad) as usize + spot.row - spot.ring;
    let is_wide = block.w == 16;
    let is_high = block.h == 16;
    let first = own[0].abs_diff(sums.sum_from(column, row));
    let right = apart_where(own[1], sums, is_wide, column + 8, row);
    let below = apart_where(own[2], sums, is_high, column, row + 8);
    let last = apart_where(own[3], sums, is_wide & is_high, column + 8, row + 8);
    first + right + below + last
}
