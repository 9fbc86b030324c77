// Pictures of numbers: the samples of luma, Cb and Cr, row by row.
ghost use Rattle.std.specs.Prelude.{◌≡◌, ◌≤◌, ◌*◌, IsTrue, length};
ghost use Rattle.picture_planes.specs.Pictures.{SameShapes};

use picture_planes::{Picture, Plane};
use std::alloc::Global;
use tool_input::{Fault, Numbers, as_bytes};

const SAMPLES: &str = "as many samples of 0 to 255 as the pictures have";

/// The samples that numbers write, this many.
pub fn read_samples(alloc: Global, numbers: &mut Numbers, count: usize) -> Result<Vec<u8>, Fault> {
    as_bytes(alloc, numbers.take(count, SAMPLES)?, SAMPLES)
}

/// Whether these are all samples of a plane.
pub fn fills(plane: &Plane, samples: &[u8]) -> bool
    ensures { IsTrue result → length samples.now ≡ plane.now.height * plane.now.width }
{
    samples.len() == plane.height as usize * plane.width as usize
}

fn fill(picture: &mut Picture, luma: &[u8], cb: &[u8], cr: &[u8]) -> Result<(), Fault>
    ensures { SameShapes picture.old picture.new }
{
    if !fills(&picture.y, luma) || !fills(&picture.cb, cb) || !fills(&picture.cr, cr) {
        return Err(Fault::Input(SAMPLES));
    }
    let rows = picture.y.height;
    picture.y.set_rows(0, rows, luma);
    let rows = picture.cb.height;
    picture.cb.set_rows(0, rows, cb);
    let rows = picture.cr.height;
    picture.cr.set_rows(0, rows, cr);
    Ok(())
}

/// Reads the next picture, of this size.
pub fn read_into(
    alloc: Global,
    numbers: &mut Numbers,
    width: u32,
    height: u32,
    picture: &mut Picture,
) -> Result<(), Fault>
    requires width { width ≤ 4096 }
    requires height { height ≤ 2304 }
    ensures { SameShapes picture.old picture.new }
{
    let count = width as usize * height as usize;
    let luma = read_samples(alloc, numbers, count)?;
    let cb = read_samples(alloc, numbers, count / 4)?;
    let cr = read_samples(alloc, numbers, count / 4)?;
    fill(picture, luma.as_slice(), cb.as_slice(), cr.as_slice())
}

/// The next picture, of this size.
pub fn read_picture(
    alloc: Global,
    numbers: &mut Numbers,
    width: u32,
    height: u32,
) -> Result<Picture, Fault>
    requires width { (1 ≤ width) × (width ≤ 4096) }
    requires height { (1 ≤ height) × (height ≤ 2304) }
{
    let mut picture = Picture::new(alloc, width, height)?;
    read_into(alloc, numbers, width, height, &mut picture)?;
    Ok(picture)
}
