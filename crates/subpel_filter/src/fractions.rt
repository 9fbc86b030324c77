// Blocks of luma samples at quarter sample positions.
ghost use Rattle.std.specs.Prelude.{◌≡◌, ◌≤◌, ◌<◌, ◌+◌, ◌*◌, ◌%◌, ℕ};
ghost use Rattle.picture_planes.specs.Margins.{buffer_width, buffer_height};
ghost use Rattle.spec_inter.specs.Blocks.{RowsOf};
ghost use Rattle.spec_inter.specs.Luma;
ghost use Rattle.subpel_filter.specs.Near.{position_at, quarter_at};

use crate::blocks::{across_block, down_block, middle_block, whole_block};
use crate::rows;
use picture_planes::Plane;
use spec_inter::Position;

// The two samples whose mean stands at each fraction, by rows of the four fractions down.
const FIRSTS: [Position; 16] = [
    Position::Here,
    Position::Here,
    Position::Across,
    Position::Right,
    Position::Here,
    Position::Across,
    Position::Across,
    Position::Across,
    Position::Down,
    Position::Down,
    Position::Middle,
    Position::Middle,
    Position::Below,
    Position::Down,
    Position::Middle,
    Position::AcrossBelow,
];

const SECONDS: [Position; 16] = [
    Position::Here,
    Position::Across,
    Position::Across,
    Position::Across,
    Position::Down,
    Position::Down,
    Position::Middle,
    Position::DownRight,
    Position::Down,
    Position::Middle,
    Position::Middle,
    Position::DownRight,
    Position::Down,
    Position::AcrossBelow,
    Position::AcrossBelow,
    Position::DownRight,
];

// The first of the two samples whose mean stands at quarter fractions x and y.
pub fn first_of(x: usize, y: usize) -> Position
    requires { (x < 4) × (y < 4) }
    ensures { result ≡ Luma.first_of x y }
{
    FIRSTS[4 * y + x]
}

// The second of them.
pub fn second_of(x: usize, y: usize) -> Position
    requires { (x < 4) × (y < 4) }
    ensures { result ≡ Luma.second_of x y }
{
    SECONDS[4 * y + x]
}

#[tactic(auto, unfolding(crate::specs::Near::position_at, crate::specs::Near::whole_at, crate::specs::Near::across_at, crate::specs::Near::down_at))]
fn position_block<const W: usize>(
    plane: &Plane,
    position: Position,
    column: usize,
    row: usize,
    h: usize,
    out: &mut [u8; 256],
)
    requires size { (W ≤ 16) × (h ≤ 16) }
    requires fours { h % 4 ≡ 0 }
    requires across { column + W + 5 ≤ buffer_width plane.now }
    requires down { row + h + 5 ≤ buffer_height plane.now }
    ensures { RowsOf (position_at plane.now position column row) W h out.new }
{
    match position {
        Position::Here => whole_block::<W>(plane, 2, 2, column, row, h, out),
        Position::Right => whole_block::<W>(plane, 3, 2, column, row, h, out),
        Position::Below => whole_block::<W>(plane, 2, 3, column, row, h, out),
        Position::Across => across_block::<W>(plane, 2, column, row, h, out),
        Position::AcrossBelow => across_block::<W>(plane, 3, column, row, h, out),
        Position::Down => down_block::<W>(plane, 2, column, row, h, out),
        Position::DownRight => down_block::<W>(plane, 3, column, row, h, out),
        Position::Middle => middle_block::<W>(plane, column, row, h, out),
    }
}

// The mean of the two blocks whose mean stands at quarter fractions x and y.
fn mean_block<const W: usize>(
    plane: &Plane,
    x: usize,
    y: usize,
    column: usize,
    row: usize,
    h: usize,
    out: &mut [u8; 256],
)
    requires fraction { (x < 4) × (y < 4) }
    requires size { (W ≤ 16) × (h ≤ 16) }
    requires fours { h % 4 ≡ 0 }
    requires across { column + W + 5 ≤ buffer_width plane.now }
    requires down { row + h + 5 ≤ buffer_height plane.now }
    ensures { RowsOf (quarter_at plane.now x y column row) W h out.new }
{
    position_block::<W>(plane, first_of(x, y), column, row, h, out);
    let mut other = [0u8; 256];
    position_block::<W>(plane, second_of(x, y), column, row, h, &mut other);
    rows::averaged(&other, W * h, out);
}

// The block at quarter fractions x and y.
pub fn quarter_block<const W: usize>(
    plane: &Plane,
    x: usize,
    y: usize,
    column: usize,
    row: usize,
    h: usize,
    out: &mut [u8; 256],
)
    requires fraction { (x < 4) × (y < 4) }
    requires size { (W ≤ 16) × (h ≤ 16) }
    requires fours { h % 4 ≡ 0 }
    requires across { column + W + 5 ≤ buffer_width plane.now }
    requires down { row + h + 5 ≤ buffer_height plane.now }
    ensures { RowsOf (quarter_at plane.now x y column row) W h out.new }
{
    if x == 0 && y == 0 {
        whole_block::<W>(plane, 2, 2, column, row, h, out);
        return;
    }
    if x % 2 == 0 && y % 2 == 0 {
        position_block::<W>(plane, first_of(x, y), column, row, h, out);
        return;
    }
    mean_block::<W>(plane, x, y, column, row, h, out);
}
