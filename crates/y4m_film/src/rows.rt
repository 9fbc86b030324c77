// Planes are read row by row, and padded to whole macroblocks.
ghost use Rattle.std.specs.Prelude.{◌≡◌, ◌≤◌, ◌<◌, ◌+◌, ◌-◌, ◌*◌, List, length, take, IfOk, IfErr};
ghost use Rattle.enc_edge.specs.Reads.{ReadFailedWithin};
ghost use Rattle.spec_film.specs.Over.{over};
ghost use Rattle.spec_film.specs.Padding.{widened, widened_rows, repeated, padded_plane};
ghost use Rattle.picture_planes.specs.Samples.{row_of, samples_of, SameShape};
ghost use Rattle.y4m_film.specs.Parts.{PartRead};

use crate::pieces::PIECE;
use enc_edge::{Failed, Studio, read_full};
use picture_planes::Plane;

/// The most samples in a row.
pub(crate) const MOST_ROW: usize = 4096;

// Behind the samples, the last one is repeated to the row's end.
fn widen(samples: &[u8], row: &mut [u8])
    requires some { 0 < length samples.now }
    requires room { length samples.now ≤ length row.old }
    ensures { row.new ≡ widened (length row.old) samples.now }
{
    let count = samples.len();
    row[..count].copy_from_slice(samples);
    row[count..].fill(samples[count - 1]);
}

// Writes a row, made as wide as the plane. `row` is room to make it in.
fn set_row(plane: &mut Plane, y: u32, samples: &[u8], row: &mut [u8; MOST_ROW])
    requires place { y < plane.old.height }
    requires some { 0 < length samples.now }
    requires room { length samples.now ≤ plane.old.width }
    ensures shape { SameShape plane.old plane.new }
    ensures samples { samples_of plane.new ≡ over (samples_of plane.old) (y * plane.old.width) (widened plane.old.width samples.now) }
{
    let width = plane.width as usize;
    widen(samples, &mut row[..width]);
    plane.set_rows(y, 1, &row[..width]);
}

// Writes rows of `width` samples from row `first` on, made as wide as the plane.
fn set_rows(
    plane: &mut Plane,
    first: u32,
    rows: u32,
    width: u32,
    samples: &[u8],
    row: &mut [u8; MOST_ROW],
)
    requires rows { first + rows ≤ plane.old.height }
    requires width { (0 < width) × (width ≤ plane.old.width) }
    requires samples { length samples.now ≡ rows * width }
    ensures shape { SameShape plane.old plane.new }
    ensures samples { samples_of plane.new ≡ over (samples_of plane.old) (first * plane.old.width) (widened_rows width plane.old.width rows samples.now) }
{
    let width = width as usize;
    for k in 0..rows {
        let start = k as usize * width;
        let end = start + width;
        set_row(plane, first + k, &samples[start..end], row);
    }
}

// Writes the last of `height` rows again and again to the plane's end.
fn repeat_last(plane: &mut Plane, height: u32, row: &mut [u8; MOST_ROW])
    requires { (0 < height) × (height ≤ plane.old.height) }
    ensures shape { SameShape plane.old plane.new }
    ensures samples { samples_of plane.new ≡ over (samples_of plane.old) (height * plane.old.width) (repeated (plane.old.height - height) (row_of plane.old (height - 1))) }
{
    let width = plane.width as usize;
    row[..width].copy_from_slice(plane.row(height - 1));
    for y in height..plane.height {
        plane.set_rows(y, 1, &row[..width]);
    }
}

// Reads `rows` rows of `width` samples into `piece`, and writes them from row `first` on where all are there.
fn read_rows<S: Studio>(
    studio: &mut S,
    plane: &mut Plane,
    first: u32,
    rows: u32,
    width: u32,
    piece: &mut [u8],
    row: &mut [u8; MOST_ROW],
) -> Result<usize, Failed>
    requires rows { first + rows ≤ plane.old.height }
    requires width { (0 < width) × (width ≤ plane.old.width) }
    requires piece { length piece.old ≡ rows * width }
    ensures shape { SameShape plane.old plane.new }
    ensures read { IfOk result (λ n. PartRead (rows * width) n (λ left. samples_of plane.new ≡ over (samples_of plane.old) (first * plane.old.width) (widened_rows width plane.old.width rows left)) (S.seen studio.old) (S.seen studio.new)) }
    ensures err { IfErr result (λ _. ReadFailedWithin (rows * width) (S.seen studio.old) (S.seen studio.new)) }
{
    let read = read_full(studio, piece)?;
    if read < piece.len() {
        return Ok(read);
    }
    set_rows(plane, first, rows, width, piece, row);
    Ok(read)
}

// Reads `height` rows of `width` samples, as many at once as `piece` has room for.
fn read_all_rows<S: Studio>(
    studio: &mut S,
    plane: &mut Plane,
    width: u32,
    height: u32,
    piece: &mut [u8; PIECE],
    row: &mut [u8; MOST_ROW],
) -> Result<usize, Failed>
    requires width { (0 < width) × (width ≤ plane.old.width) }
    requires height { height ≤ plane.old.height }
    ensures shape { SameShape plane.old plane.new }
    ensures read { IfOk result (λ n. PartRead (height * width) n (λ left. samples_of plane.new ≡ over (samples_of plane.old) 0 (widened_rows width plane.old.width height left)) (S.seen studio.old) (S.seen studio.new)) }
    ensures err { IfErr result (λ _. ReadFailedWithin (height * width) (S.seen studio.old) (S.seen studio.new)) }
{
    let most = PIECE as u32 / width;
    let mut first = 0;
    while first < height {
        let rows = most.min(height - first);
        let count = rows as usize * width as usize;
        let read = read_rows(studio, plane, first, rows, width, &mut piece[..count], row)?;
        if read < count {
            return Ok(first as usize * width as usize + read);
        }
        first += rows;
    }
    Ok(height as usize * width as usize)
}

/// Reads the samples of a plane of `width` by `height` samples, row by row, and pads it to the whole plane. The answer
/// is how many bytes were read; where the input has fewer than all, the plane's samples may be any. `piece` and `row`
/// are room to read into and to pad in.
pub(crate) fn read_plane<S: Studio>(
    studio: &mut S,
    plane: &mut Plane,
    width: u32,
    height: u32,
    piece: &mut [u8; PIECE],
    row: &mut [u8; MOST_ROW],
) -> Result<usize, Failed>
    requires width { (0 < width) × (width ≤ plane.old.width) }
    requires height { (0 < height) × (height ≤ plane.old.height) }
    ensures shape { SameShape plane.old plane.new }
    ensures read { IfOk result (λ n. PartRead (height * width) n (λ left. samples_of plane.new ≡ padded_plane width height plane.old.width plane.old.height left) (S.seen studio.old) (S.seen studio.new)) }
    ensures err { IfErr result (λ _. ReadFailedWithin (height * width) (S.seen studio.old) (S.seen studio.new)) }
{
    let read = read_all_rows(studio, plane, width, height, piece, row)?;
    repeat_last(plane, height, row);
    Ok(read)
}
