// Half samples of a whole plane, made row by row and kept.
ghost use Rattle.std.specs.Prelude.{◌≡◌, ◌≤◌, ◌<◌, ◌+◌, ◌-◌, ◌*◌, ℕ, min, pos, ◌-ℤ◌};
ghost use Rattle.picture_planes.specs.Samples.{SameShape};
ghost use Rattle.picture_planes.specs.Margins.{buffer_width, buffer_height, inward, IsFilled};
ghost use Rattle.spec_inter.specs.Halves.{halves_of};
ghost use Rattle.subpel_filter.specs.Halves.{samples_at, Holds, AreSized, AreHalves, RowMade};

use crate::rows;
use picture_planes::Plane;

/// The half samples of a luma plane, each kind in a plane of its size and margin (ITU-T H.264, clause 8.4.2.2.1).
#[derive(Drop)]
pub struct HalfPlanes {
    /// Half a sample to the right of each sample.
    pub b: Plane,
    /// Half a sample below each sample.
    pub h: Plane,
    /// Half a sample to the right of each sample and half a sample below it.
    pub j: Plane,
}

// The row of a buffer of `rows` rows that is nearest to the one `k` rows below the second row above `row`.
fn near_row(row: usize, k: usize, rows: usize) -> usize
    requires rows { rows ≤ 2384 }
    requires row { (row < rows) × (k ≤ 5) }
    ensures value { result ≡ min (row + k - 2) (rows - 1) }
    ensures inside { result < rows }
{
    (row + k).saturating_sub(2).min(rows - 1)
}

// A row of a buffer, counted from the plane's first row.
fn inner_row(row: usize, pad: u32) -> i32
    requires { (row ≤ 2384) × (pad ≤ 40) }
    ensures { result ≡ pos row -ℤ pos pad }
{
    row as i32 - pad as i32
}

// The half samples between columns, over a row of the buffer.
fn across_row(plane: &Plane, row: usize, line: &mut [u8; 4181], out: &mut Plane)
    requires filled { IsFilled plane.now }
    requires shape { SameShape plane.now out.old }
    requires row { row < buffer_height plane.now }
    ensures { RowMade (λ c. (halves_of (samples_at plane.now)).b (inward plane.now c) (inward plane.now row)) row out.old out.new }
{
    let width = (plane.width + 2 * plane.pad) as usize;
    rows::widened(plane.window(0, row, width), &mut line[..width + 5]);
    rows::halves_along(
        &line[..width + 5],
        out.padded_row_mut(inner_row(row, plane.pad)),
    );
}

// The half samples between rows, over a row of the buffer.
fn down_row(plane: &Plane, row: usize, out: &mut Plane)
    requires filled { IsFilled plane.now }
    requires shape { SameShape plane.now out.old }
    requires row { row < buffer_height plane.now }
    ensures { RowMade (λ c. (halves_of (samples_at plane.now)).h (inward plane.now c) (inward plane.now row)) row out.old out.new }
{
    let width = (plane.width + 2 * plane.pad) as usize;
    let rows = (plane.height + 2 * plane.pad) as usize;
    let a = plane.window(0, near_row(row, 0, rows), width);
    let b = plane.window(0, near_row(row, 1, rows), width);
    let c = plane.window(0, row, width);
    let d = plane.window(0, near_row(row, 3, rows), width);
    let e = plane.window(0, near_row(row, 4, rows), width);
    let f = plane.window(0, near_row(row, 5, rows), width);
    let made = out.padded_row_mut(inner_row(row, plane.pad));
    rows::halves_below(a, b, c, d, e, f, made);
}

// The half samples between columns and rows, over a row of the buffer: the taps down each column first.
fn middle_row(plane: &Plane, row: usize, line: &mut [u16; 4181], out: &mut Plane)
    requires filled { IsFilled plane.now }
    requires shape { SameShape plane.now out.old }
    requires row { row < buffer_height plane.now }
    ensures { RowMade (λ c. (halves_of (samples_at plane.now)).j (inward plane.now c) (inward plane.now row)) row out.old out.new }
{
    let width = (plane.width + 2 * plane.pad) as usize;
    let rows = (plane.height + 2 * plane.pad) as usize;
    let a = plane.window(0, near_row(row, 0, rows), width);
    let b = plane.window(0, near_row(row, 1, rows), width);
    let c = plane.window(0, row, width);
    let d = plane.window(0, near_row(row, 3, rows), width);
    let e = plane.window(0, near_row(row, 4, rows), width);
    let f = plane.window(0, near_row(row, 5, rows), width);
    rows::raws_below(a, b, c, d, e, f, &mut line[2..width + 2]);
    rows::ends_copied(&mut line[..width + 5]);
    rows::middles_along(
        &line[..width + 5],
        out.padded_row_mut(inner_row(row, plane.pad)),
    );
}

fn fill_across(plane: &Plane, out: &mut Plane)
    requires filled { IsFilled plane.now }
    requires shape { SameShape plane.now out.old }
    ensures shape { SameShape out.old out.new }
    ensures made { Holds (halves_of (samples_at plane.now)).b out.new }
{
    let mut line = [0u8; 4181];
    let rows = (plane.height + 2 * plane.pad) as usize;
    for row in 0..rows {
        across_row(plane, row, &mut line, out);
    }
}

fn fill_down(plane: &Plane, out: &mut Plane)
    requires filled { IsFilled plane.now }
    requires shape { SameShape plane.now out.old }
    ensures shape { SameShape out.old out.new }
    ensures made { Holds (halves_of (samples_at plane.now)).h out.new }
{
    let rows = (plane.height + 2 * plane.pad) as usize;
    for row in 0..rows {
        down_row(plane, row, out);
    }
}

fn fill_middle(plane: &Plane, out: &mut Plane)
    requires filled { IsFilled plane.now }
    requires shape { SameShape plane.now out.old }
    ensures shape { SameShape out.old out.new }
    ensures made { Holds (halves_of (samples_at plane.now)).j out.new }
{
    let mut line = [0u16; 4181];
    let rows = (plane.height + 2 * plane.pad) as usize;
    for row in 0..rows {
        middle_row(plane, row, &mut line, out);
    }
}

/// Makes the half samples of a plane: at every place, in the margin too, the half samples of the samples about it,
/// where a place outside the plane has the sample of the nearest place inside. The four planes have one size and
/// margin, and the margin of `plane` is filled.
pub fn fill_halves(plane: &Plane, halves: &mut HalfPlanes)
    requires filled { IsFilled plane.now }
    requires sizes { AreSized plane.now halves.old }
    ensures sizes { AreSized plane.now halves.new }
    ensures made { AreHalves plane.now halves.new }
{
    fill_across(plane, &mut halves.b);
    fill_down(plane, &mut halves.h);
    fill_middle(plane, &mut halves.j);
}
