// Blocks of chroma samples at eighth sample positions.
ghost use Rattle.std.specs.Prelude.{◌≡◌, ◌≤◌, ◌<◌, ◌+◌, ◌-◌, ◌*◌, ◌/◌, ℕ, length, slice_index};
ghost use Rattle.picture_planes.specs.Margins.{buffer_width, buffer_height};
ghost use Rattle.spec_inter.specs.Blocks.{RowsOf};
ghost use Rattle.subpel_filter.specs.Near.{eighth_in};

use picture_planes::Plane;

// The weights of a sample, of those at its right and below it, and of the one below and at its right.
#[derive(Clone, Copy)]
struct Weights {
    here: u16,
    right: u16,
    below: u16,
    both: u16,
}

// The weights at u eighths to the right and v eighths down.
fn weights_at(u: u16, v: u16) -> Weights
    requires { (u < 8) × (v < 8) }
    ensures here { result.here ≡ (8 - u) * (8 - v) }
    ensures right { result.right ≡ u * (8 - v) }
    ensures below { result.below ≡ (8 - u) * v }
    ensures both { result.both ≡ u * v }
    ensures sum { result.here + result.right + result.below + result.both ≡ 64 }
{
    Weights {
        here: (8 - u) * (8 - v),
        right: u * (8 - v),
        below: (8 - u) * v,
        both: u * v,
    }
}

// One row, from the row of samples and the one below it.
#[inline(always)]
fn weighted(a: &[u8], b: &[u8], by: Weights, out: &mut [u8])
    requires room { length a.now ≡ length out.old + 1 }
    requires same { length b.now ≡ length a.now }
    requires weights { by.here + by.right + by.below + by.both ≡ 64 }
    ensures { (i : ℕ) → i < length out.old → slice_index out.new i ≡ (by.here * slice_index a.now i + by.right * slice_index a.now (i + 1) + by.below * slice_index b.now i + by.both * slice_index b.now (i + 1) + 32) / 64 }
{
    for i in 0..out.len() {
        out[i] = ((by.here * a[i] as u16
            + by.right * a[i + 1] as u16
            + by.below * b[i] as u16
            + by.both * b[i + 1] as u16
            + 32)
            / 64) as u8;
    }
}

// The block at eighths u and v whose surroundings begin at a column and a row of the buffer.
pub fn eighth_block<const W: usize>(
    plane: &Plane,
    u: u16,
    v: u16,
    column: usize,
    row: usize,
    h: usize,
    out: &mut [u8; 64],
)
    requires fraction { (u < 8) × (v < 8) }
    requires size { (W ≤ 8) × (h ≤ 8) }
    requires across { column + W + 1 ≤ buffer_width plane.now }
    requires down { row + h + 1 ≤ buffer_height plane.now }
    ensures { RowsOf (eighth_in plane.now u v column row) W h out.new }
{
    let by = weights_at(u, v);
    for j in 0..h {
        let a = plane.window(column, row + j, W + 1);
        let b = plane.window(column, row + j + 1, W + 1);
        weighted(a, b, by, &mut out[j * W..j * W + W]);
    }
}
