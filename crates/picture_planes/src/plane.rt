// A plane is one buffer of rows, with a margin on each side.
ghost use Rattle.std.specs.Prelude.{◌≡◌, ◌≢◌, ◌≤◌, ◌<◌, ◌+◌, ◌-◌, ◌*◌, ℕ, List, length, vec_len, IfOk, replicate, slice_range, drop, pos, ◌+ℤ◌, ◌≤ℤ◌, ◌<ℤ◌};
ghost use Rattle.std.specs.Borrow.{sem};
ghost use Rattle.spec_film.specs.Places.{clamped_to, place_of};
ghost use Rattle.spec_film.specs.Over.{over};

use std::alloc::{AllocError as OutOfMemory, Global};

/// Samples, `width` in each of `height` rows, with a margin of `pad` samples on each side. Samples and margin are
/// kept row by row in one buffer.
#[derive(Drop)]
pub struct Plane {
    bytes: Vec<u8>,
    /// Samples in a row, without the margin: 1 to 4096.
    pub width: u32,
    /// Rows, without the margin: 1 to 2304.
    pub height: u32,
    /// Samples on each side of the margin: at most 40.
    pub pad: u32,
    ghost size: { (0 < width) × (width ≤ 4096) × (0 < height) × (height ≤ 2304) × (pad ≤ 40) },
    ghost whole: { vec_len bytes ≡ (width + 2 * pad) * (height + 2 * pad) },
}

// The place from 0 to `size` - 1 that is nearest.
fn clamped(place: i32, size: u32) -> u32
    requires { 0 < size }
    ensures { result ≡ clamped_to place size }
{
    if place < 0 {
        0
    } else {
        (place as u32).min(size - 1)
    }
}

// The row of the buffer that has row `y` of the plane or its margin.
fn buffer_place(y: i32, pad: u32) -> usize
    requires low { pos 0 ≤ℤ (y +ℤ pos pad) }
    requires high { y <ℤ pos 2400 }
    requires pad { pad ≤ 40 }
    ensures value { pos result ≡ y +ℤ pos pad }
    ensures place { result ≡ place_of (y +ℤ pos pad) }
{
    (y + pad as i32) as usize
}

impl Plane {
    ghost use Rattle.picture_planes.specs.Samples.{buffer, row_start, row_of, samples_of, at, LendsRow, LendsBuffer, SameShape};
    ghost use Rattle.picture_planes.specs.Margins.{buffer_width, buffer_height, buffer_row, IsFilled, IsInMargin, HoldsNearest, IsWindow, IsBlock, IsNearestWindow, LendsBufferRow, LendsPaddedRow, row_place};
    ghost use Rattle.picture_planes.specs.Edges.{with_sides, OneRow, Edged};
    ghost use Rattle.picture_planes.specs.Placed.{RowsPlaced};

    /// A plane whose samples are 0, in the margin too. Width is from 1 to 4096, height from 1 to 2304 and `pad` at
    /// most 40.
    pub fn new(alloc: Global, width: u32, height: u32, pad: u32) -> Result<Plane, OutOfMemory>
        requires width { (1 ≤ width) × (width ≤ 4096) }
        requires height { (1 ≤ height) × (height ≤ 2304) }
        requires pad { pad ≤ 40 }
        ensures shape { IfOk result (λ p. (p.width ≡ width) × (p.height ≡ height) × (p.pad ≡ pad)) }
        ensures bytes { IfOk result (λ p. buffer p ≡ replicate ((width + 2 * pad) * (height + 2 * pad)) 0) }
        ensures samples { IfOk result (λ p. samples_of p ≡ replicate (height * width) 0) }
    {
        let count = (width + 2 * pad) as usize * (height + 2 * pad) as usize;
        let bytes = vec![in alloc; 0; count]?;
        Ok(Plane {
            bytes,
            width,
            height,
            pad,
        })
    }

    /// The sample at column `x` of row `y`. A place outside the plane has the sample of the nearest place inside.
    pub fn get(&self, x: i32, y: i32) -> u8
        ensures { result ≡ at self.now (clamped_to x self.now.width) (clamped_to y self.now.height) }
    {
        let column = clamped(x, self.width);
        let row = clamped(y, self.height);
        self.row(row)[column as usize]
    }

    /// Row `y` without its margin.
    pub fn row(&self, y: u32) -> &[u8]
        requires { y < self.now.height }
        ensures value { result.now ≡ row_of self.now y }
        ensures len { length result.now ≡ self.now.width }
    {
        let start = (y + self.pad) as usize * (self.width + 2 * self.pad) as usize
            + self.pad as usize;
        let end = start + self.width as usize;
        &self.bytes[start..end]
    }

    /// Lends row `y` without its margin for writing; all other samples stay.
    pub fn row_mut(&mut self, y: u32) -> &mut [u8]
        requires { y < self.old.height }
        ensures* writes_back { sem 𝓛 (LendsRow self.entry y result) }
        ensures value { result.now ≡ row_of self.old y }
        ensures len { length result.now ≡ self.old.width }
    {
        let start = (y + self.pad) as usize * (self.width + 2 * self.pad) as usize
            + self.pad as usize;
        let end = start + self.width as usize;
        self.bytes.slice_mut(start..end)
    }

    /// Lends all rows with their margins for writing, as one buffer: the sample at column `x` of row `y` stands at
    /// `(y + pad) * (width + 2 * pad) + pad + x`.
    pub fn buffer_mut(&mut self) -> &mut [u8]
        ensures* writes_back { sem 𝓛 (LendsBuffer self.entry result) }
        ensures value { result.now ≡ buffer self.old }
        ensures len { length result.now ≡ (self.old.width + 2 * self.old.pad) * (self.old.height + 2 * self.old.pad) }
    {
        self.bytes.as_mut_slice()
    }

    /// Writes `rows` whole rows from row `first` on: `samples` has them one after another, without margins.
    pub fn set_rows(&mut self, first: u32, rows: u32, samples: &[u8])
        requires rows { first + rows ≤ self.old.height }
        requires samples { length samples.now ≡ rows * self.old.width }
        ensures shape { SameShape self.old self.new }
        ensures samples { samples_of self.new ≡ over (samples_of self.old) (first * self.old.width) samples.now }
    {
        let width = self.width as usize;
        for k in 0..rows {
            let start = k as usize * width;
            let end = start + width;
            self.row_mut(first + k)
                .copy_from_slice(&samples[start..end]);
        }
    }

    /// Takes over all rows of another plane of the same width, from row `first` on; all other samples stay.
    pub fn place(&mut self, first: u32, other: &Plane)
        requires room { first + other.now.height ≤ self.old.height }
        requires width { other.now.width ≡ self.old.width }
        ensures rows { RowsPlaced first other.now.height other.now self.old self.new }
        ensures samples { samples_of self.new ≡ over (samples_of self.old) (first * self.old.width) (samples_of other.now) }
    {
        for y in 0..other.height {
            self.row_mut(first + y).copy_from_slice(other.row(y));
        }
    }

    /// Makes all samples, and the margin's too, those of `other`, whose sizes and margin are the same.
    pub fn copy_from(&mut self, other: &Plane)
        requires { SameShape other.now self.old }
        ensures shape { SameShape self.old self.new }
        ensures bytes { buffer self.new ≡ buffer other.now }
        ensures samples { samples_of self.new ≡ samples_of other.now }
        ensures filled { IsFilled other.now → IsFilled self.new }
    {
        self.bytes.copy_from_slice(other.bytes.as_slice());
    }

    /// Row `y` with its margins, for `y` within the margin. Inside the plane it holds the samples that `get` gives, and
    /// in the margins too once they are filled.
    pub fn padded_row(&self, y: i32) -> &[u8]
        requires { IsInMargin self.now y }
        ensures len { length result.now ≡ buffer_width self.now }
        ensures inside { (pos 0 ≤ℤ y) × (y <ℤ pos self.now.height) → HoldsNearest self.now y result.now self.now.pad (self.now.pad + self.now.width) }
        ensures filled { IsFilled self.now → HoldsNearest self.now y result.now 0 (buffer_width self.now) }
    {
        let row = buffer_place(y, self.pad);
        let width = (self.width + 2 * self.pad) as usize;
        self.window(0, row, width)
    }

    /// `count` bytes of the buffer's row `row` from column `column` on; columns and rows are counted from the margin's
    /// corner. They are samples that `get` gives once the margin is filled.
    pub fn window(&self, column: usize, row: usize, count: usize) -> &[u8]
        requires down { row < buffer_height self.now }
        requires across { column + count ≤ buffer_width self.now }
        ensures len { length result.now ≡ count }
        ensures list { result.now ≡ slice_range (buffer self.now) (row * buffer_width self.now + column) (row * buffer_width self.now + column + count) }
        ensures value { IsWindow self.now column row count result.now }
        ensures filled { IsFilled self.now → IsNearestWindow self.now column row count result.now }
    {
        let start = row * (self.width + 2 * self.pad) as usize + column;
        &self.bytes[start..start + count]
    }

    /// The buffer's bytes from column `column` of row `row` on to its end, row after row; columns and rows are counted
    /// from the margin's corner.
    #[inline(always)]
    pub fn rows_from(&self, column: usize, row: usize) -> &[u8]
        requires down { row < buffer_height self.now }
        requires across { column < buffer_width self.now }
        ensures list { result.now ≡ drop (row * buffer_width self.now + column) (buffer self.now) }
        ensures value { IsBlock self.now column row result.now }
        ensures len { (w h : ℕ) → column + w ≤ buffer_width self.now → row + h ≤ buffer_height self.now → 0 < h → (h - 1) * buffer_width self.now + w ≤ length result.now }
    {
        let start = row * (self.width + 2 * self.pad) as usize + column;
        &self.bytes[start..]
    }

    // Lends a row of the buffer, margins and all.
    fn buffer_row_mut(&mut self, row: usize) -> &mut [u8]
        requires { row < buffer_height self.old }
        ensures* writes_back { sem 𝓛 (LendsBufferRow self.entry row result) }
        ensures value { result.now ≡ buffer_row self.old row }
        ensures len { length result.now ≡ buffer_width self.old }
    {
        let width = (self.width + 2 * self.pad) as usize;
        let start = row * width;
        let end = start + width;
        self.bytes.slice_mut(start..end)
    }

    /// Lends row `y` with its margins for writing, for `y` within the margin; all else stays. What is written is what
    /// `padded_row` gives.
    pub fn padded_row_mut(&mut self, y: i32) -> &mut [u8]
        requires { IsInMargin self.old y }
        ensures* writes_back { sem 𝓛 (LendsPaddedRow self.entry y result) }
        ensures value { result.now ≡ buffer_row self.old (row_place self.old y) }
        ensures len { length result.now ≡ buffer_width self.old }
    {
        let row = buffer_place(y, self.pad);
        self.buffer_row_mut(row)
    }

    // Fills the margins of a row of the buffer.
    fn pad_row(&mut self, row: usize)
        requires { row < buffer_height self.old }
        ensures { OneRow row (with_sides self.old.pad self.old.width (buffer_row self.old row)) self.old self.new }
    {
        let pad = self.pad as usize;
        let width = self.width as usize;
        let samples = self.buffer_row_mut(row);
        let first = samples[pad];
        let last = samples[pad + width - 1];
        samples[..pad].fill(first);
        samples[pad + width..].fill(last);
    }

    // Makes one row of the buffer another.
    fn copy_row(&mut self, from: usize, to: usize)
        requires { (from < buffer_height self.old) × (to < buffer_height self.old) × (from ≢ to) }
        ensures { OneRow to (buffer_row self.old from) self.old self.new }
    {
        let width = (self.width + 2 * self.pad) as usize;
        let start = from * width;
        self.bytes.copy_within(start..start + width, to * width);
    }

    // Fills the margin, row by row.
    fn pad_rows(&mut self)
        ensures { Edged self.old.pad (self.old.pad + self.old.height) (buffer_height self.old) self.old self.new }
    {
        let pad = self.pad as usize;
        let height = self.height as usize;
        for y in pad..pad + height {
            self.pad_row(y);
        }
        for above in 0..pad {
            self.copy_row(pad, above);
        }
        for below in pad + height..height + 2 * pad {
            self.copy_row(pad + height - 1, below);
        }
    }

    /// Fills the margin: each place in it gets the sample of the nearest place of the plane. The samples stay.
    pub fn pad_edges(&mut self)
        ensures shape { SameShape self.old self.new }
        ensures filled { IsFilled self.new }
        ensures samples { samples_of self.new ≡ samples_of self.old }
    {
        self.pad_rows();
    }
}
