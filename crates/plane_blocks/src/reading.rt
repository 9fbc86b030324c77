// Blocks of planes.
ghost use Rattle.std.specs.Prelude.{◌≡◌, ◌≤◌, ◌<◌, ◌+◌, ◌*◌, length};
ghost use Rattle.picture_planes.specs.Samples.{samples_of};
ghost use Rattle.spec_reconstruction.specs.Parts.{block_at};

use picture_planes::Plane;

/// Copies the block of `n` by `n` samples whose upper left one is at (`x`, `y`), row by row.
#[inline(always)]
pub fn read_block(plane: &Plane, x: u32, y: u32, n: u32, out: &mut [u8])
    requires columns { x + n ≤ plane.now.width }
    requires rows { y + n ≤ plane.now.height }
    requires room { length out.old ≡ n * n }
    ensures { out.new ≡ block_at plane.now.width x y n (samples_of plane.now) }
{
    let side = n as usize;
    let from = x as usize;
    let to = from + side;
    for j in 0..n {
        let start = j as usize * side;
        let end = start + side;
        let row = plane.row(y + j);
        out[start..end].copy_from_slice(&row[from..to]);
    }
}
