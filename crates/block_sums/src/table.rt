// The table of sums, as large as the plane with its margin.
ghost use Rattle.std.specs.Prelude.{◌≡◌, ◌≤◌, ◌<◌, ◌+◌, ◌-◌, ◌*◌, ℕ, ℤ, pos, vec_len, length, slice_index, IfOk, ◌+ℤ◌, ◌-ℤ◌, ◌≤ℤ◌};
ghost use Rattle.spec_kernels.specs.Sums.{block_sum};
ghost use Rattle.picture_planes.specs.Margins.{IsFilled, nearest};

use crate::passes::add_squares;
use picture_planes::Plane;
use std::alloc::{AllocError as OutOfMemory, Global};

/// For each place of a plane and its margin, the sum of the 8x8 samples that begin there.
#[derive(Drop)]
pub struct SumTable {
    sums: Vec<u16>,
    /// Samples in a row of the plane, without the margin: 1 to 4096.
    pub width: u32,
    /// Rows of the plane, without the margin: 1 to 2304.
    pub height: u32,
    /// Samples on each side of the margin: at most 40.
    pub pad: u32,
    ghost size: { (0 < width) × (width ≤ 4096) × (0 < height) × (height ≤ 2304) × (pad ≤ 40) },
    ghost whole: { vec_len sums ≡ (width + 2 * pad) * (height + 2 * pad) },
}

// A column or row as it is counted from the margin's corner.
fn from_corner(place: i32, pad: u32) -> usize
    requires low { pos 0 ≤ℤ (place +ℤ pos pad) }
    requires high { place ≤ℤ pos 5000 }
    requires pad { pad ≤ 40 }
    ensures { pos result ≡ place +ℤ pos pad }
{
    (place + pad as i32) as usize
}

impl SumTable {
    ghost use Rattle.picture_planes.specs.declared.plane.Plane.{Plane};
    ghost use Rattle.block_sums.specs.Tables.{HasShapeOf, IsTableOf, table_width, table_height, sum_at, IsPlace};

    /// A table for planes of this size and margin. Width is from 1 to 4096, height from 1 to 2304 and `pad` at most 40.
    pub fn new(alloc: Global, width: u32, height: u32, pad: u32) -> Result<SumTable, OutOfMemory>
        requires width { (1 ≤ width) × (width ≤ 4096) }
        requires height { (1 ≤ height) × (height ≤ 2304) }
        requires pad { pad ≤ 40 }
        ensures shape { IfOk result (λ t. (t.width ≡ width) × (t.height ≡ height) × (t.pad ≡ pad)) }
    {
        let count = (width + 2 * pad) as usize * (height + 2 * pad) as usize;
        let sums = vec![in alloc; 0u16; count]?;
        Ok(SumTable {
            sums,
            width,
            height,
            pad,
        })
    }

    /// Makes the table that of a plane of the same size and margin, whose margin is filled.
    pub fn fill(&mut self, plane: &Plane)
        requires shape { HasShapeOf self.old plane.now }
        requires filled { IsFilled plane.now }
        ensures { IsTableOf self.new plane.now }
    {
        let width = (self.width + 2 * self.pad) as usize;
        add_squares(self.sums.as_mut_slice(), plane.rows_from(0, 0), width);
    }

    /// The sum of the 8x8 samples from column `x` of row `y` on. They lie within the margin.
    pub fn sum8(&self, x: i32, y: i32) -> u32
        requires { IsPlace self.now x y }
        ensures { (p : Plane) → IsTableOf self.now p → result ≡ block_sum (λ i j. nearest p (x +ℤ pos i) (y +ℤ pos j)) 8 8 }
    {
        self.sum_from(from_corner(x, self.pad), from_corner(y, self.pad))
    }

    /// The sum of the 8x8 samples from column `column` and row `row` on, which are counted from the margin's corner.
    #[inline(always)]
    pub fn sum_from(&self, column: usize, row: usize) -> u32
        requires across { column + 8 ≤ table_width self.now }
        requires down { row + 8 ≤ table_height self.now }
        ensures value { result ≡ sum_at self.now column row }
        ensures small { result < 65536 }
    {
        self.sums[row * (self.width + 2 * self.pad) as usize + column] as u32
    }
    /// The sums from column `column` and row `row` on, which are counted from the margin's corner, along the row.
    #[inline(always)]
    pub fn sums_from(&self, column: usize, row: usize) -> &[u16]
        requires across { column < table_width self.now }
        requires down { row < table_height self.now }
        ensures value { (i : ℕ) → slice_index result.now i ≡ sum_at self.now (column + i) row }
        ensures len { (w h : ℕ) → column + w ≤ table_width self.now → row + h ≤ table_height self.now → 0 < h → (h - 1) * table_width self.now + w ≤ length result.now }
    {
        &self.sums[row * (self.width + 2 * self.pad) as usize + column..]
    }
}
