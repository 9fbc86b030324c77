// Which neighbours macroblocks and blocks have.
ghost use Rattle.std.specs.Prelude.{◌≡◌, ◌≤◌, ◌<◌, ◌+◌, ◌-◌, ◌*◌, ◌/◌, ◌%◌, ◌&&◌, ◌||◌, nat_lt, cond, ℕ};
ghost use Rattle.spec_intra.specs.Near.{macroblock_avail, block_avail};
ghost use Rattle.spec_basics.specs.Blocks.{block_number as block_number_of};

use spec_intra::Avail;
use whole_numbers::block_number;

/// Which neighbours the macroblock in this column and row has (clauses 6.4.8 and 6.4.9). A picture has `width`
/// macroblocks in a row, and the slice begins with row `first_row`.
pub fn near_macroblock(width: u32, first_row: u32, row: u32, column: u32) -> Avail
    requires column { column < width }
    requires first { first_row ≤ row }
    ensures { result ≡ macroblock_avail width (first_row * width) (row * width + column) }
{
    let left = column > 0;
    let above = row > first_row;
    let more = column < width - 1;
    Avail {
        left,
        above,
        corner: both(left, above),
        above_right: both(above, more),
    }
}

#[inline(always)]
fn both(a: bool, b: bool) -> bool
    ensures { result ≡ (a && b) }
{
    a && b
}

// Which neighbours the block in this column and row of a macroblock has, where `mb` are the macroblock's. The
// macroblock has `n` blocks in a row.
#[inline(always)]
fn near_block(n: u32, mb: &Avail, column: u32, row: u32) -> Avail
    requires few { n ≤ 4 }
    requires column { column < n }
    requires row { row < n }
    ensures { result ≡ block_avail n mb.now column row }
{
    Avail {
        left: column > 0 || mb.left,
        above: row > 0 || mb.above,
        corner: corner(mb, column, row),
        above_right: above_right(n, mb, column, row),
    }
}

#[inline(always)]
fn corner(mb: &Avail, column: u32, row: u32) -> bool
    ensures { result ≡ cond (nat_lt 0 row) (nat_lt 0 column || mb.now.left) (cond (nat_lt 0 column) mb.now.above mb.now.corner) }
{
    if row > 0 {
        column > 0 || mb.left
    } else if column > 0 {
        mb.above
    } else {
        mb.corner
    }
}

#[inline(always)]
fn above_right(n: u32, mb: &Avail, column: u32, row: u32) -> bool
    requires few { n ≤ 4 }
    requires column { column < n }
    requires row { row < n }
    ensures { result ≡ cond (nat_lt 0 row)
        (nat_lt (column + 1) n && nat_lt (block_number_of (column + 1) (row - 1)) (block_number_of column row))
        (cond (nat_lt (column + 1) n) mb.now.above mb.now.above_right) }
{
    let more = column + 1 < n;
    if row > 0 {
        let here = block_number(column as usize, row as usize);
        more && block_number(column as usize + 1, row as usize - 1) < here
    } else if more {
        mb.above
    } else {
        mb.above_right
    }
}

/// Which neighbours a macroblock's 4x4 block in this column and row has (clause 6.4.11.4), where `mb` are the
/// macroblock's.
pub fn near_block4(mb: &Avail, column: u32, row: u32) -> Avail
    requires column { column < 4 }
    requires row { row < 4 }
    ensures { result ≡ block_avail 4 mb.now column row }
{
    near_block(4, mb, column, row)
}

/// Which neighbours a macroblock's 8x8 block in this column and row has (clause 6.4.11.2), where `mb` are the
/// macroblock's.
pub fn near_block8(mb: &Avail, column: u32, row: u32) -> Avail
    requires column { column < 2 }
    requires row { row < 2 }
    ensures { result ≡ block_avail 2 mb.now column row }
{
    near_block(2, mb, column, row)
}
