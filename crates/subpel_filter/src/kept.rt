// Blocks of luma samples from half samples that are kept.
ghost use Rattle.std.specs.Prelude.{◌≡◌, ◌≤◌, ◌<◌, ◌+◌, ◌*◌, ◌%◌, ℕ};
ghost use Rattle.picture_planes.specs.Margins.{buffer_width, buffer_height};
ghost use Rattle.spec_inter.specs.Blocks.{RowsOf};
ghost use Rattle.spec_inter.specs.Taps.{mean};
ghost use Rattle.subpel_filter.specs.Near.{whole_at};
ghost use Rattle.subpel_filter.specs.Halves.{AreSized, plane_of, columns_on, rows_on, kept_mean};

use crate::blocks::whole_block;
use crate::fractions::{first_of, second_of};
use crate::halves::HalfPlanes;
use crate::rows;
use picture_planes::Plane;
use spec_inter::Position;

// How far a sample stands from the first of its surroundings.
#[derive(Clone, Copy)]
struct Shift {
    columns: usize,
    rows: usize,
}

// The shift of the sample at a position: the sample G itself stands at the third column of the third row.
fn shift_of(position: Position) -> Shift
    ensures columns { result.columns ≡ 2 + columns_on position }
    ensures rows { result.rows ≡ 2 + rows_on position }
    ensures small { (result.columns ≤ 5) × (result.rows ≤ 5) }
{
    let (columns, rows) = match position {
        Position::Here | Position::Across | Position::Down | Position::Middle => (2, 2),
        Position::Right | Position::DownRight => (3, 2),
        Position::Below | Position::AcrossBelow => (2, 3),
    };
    Shift { columns, rows }
}

// The plane in which the sample at a position is kept.
fn plane_with<'a>(plane: &'a Plane, halves: &'a HalfPlanes, position: Position) -> &'a Plane
    ensures { result.now ≡ plane_of plane.now halves.now position }
{
    match position {
        Position::Here | Position::Right | Position::Below => plane,
        Position::Across | Position::AcrossBelow => &halves.b,
        Position::Down | Position::DownRight => &halves.h,
        Position::Middle => &halves.j,
    }
}

// The means of the samples of two planes, each as far from the surroundings' first as its shift says.
fn mean_of_blocks<const W: usize>(
    a: &Plane,
    at_a: Shift,
    b: &Plane,
    at_b: Shift,
    column: usize,
    row: usize,
    h: usize,
    out: &mut [u8; 256],
)
    requires size { (W ≤ 16) × (h ≤ 16) }
    requires places_a { (at_a.columns ≤ 5) × (at_a.rows ≤ 5) }
    requires places_b { (at_b.columns ≤ 5) × (at_b.rows ≤ 5) }
    requires across { (column + W + 5 ≤ buffer_width a.now) × (column + W + 5 ≤ buffer_width b.now) }
    requires down { (row + h + 5 ≤ buffer_height a.now) × (row + h + 5 ≤ buffer_height b.now) }
    ensures { RowsOf (λ i j. mean (whole_at a.now at_a.columns at_a.rows column row i j) (whole_at b.now at_b.columns at_b.rows column row i j)) W h out.new }
{
    for j in 0..h {
        let first = a.window(column + at_a.columns, row + j + at_a.rows, W);
        let second = b.window(column + at_b.columns, row + j + at_b.rows, W);
        let made = rows::means::<W>(first, second);
        rows::copied(&made, &mut out[j * W..j * W + W]);
    }
}

// The block at quarter fractions x and y.
pub fn kept_block<const W: usize>(
    plane: &Plane,
    halves: &HalfPlanes,
    x: usize,
    y: usize,
    column: usize,
    row: usize,
    h: usize,
    out: &mut [u8; 256],
)
    requires sizes { AreSized plane.now halves.now }
    requires fraction { (x < 4) × (y < 4) }
    requires size { (W ≤ 16) × (h ≤ 16) }
    requires fours { h % 4 ≡ 0 }
    requires across { column + W + 5 ≤ buffer_width plane.now }
    requires down { row + h + 5 ≤ buffer_height plane.now }
    ensures { RowsOf (kept_mean plane.now halves.now x y column row) W h out.new }
{
    let first = first_of(x, y);
    let a = plane_with(plane, halves, first);
    let at_a = shift_of(first);
    if x % 2 == 0 && y % 2 == 0 {
        whole_block::<W>(a, at_a.columns, at_a.rows, column, row, h, out);
        return;
    }
    let second = second_of(x, y);
    let b = plane_with(plane, halves, second);
    mean_of_blocks::<W>(a, at_a, b, shift_of(second), column, row, h, out);
}
