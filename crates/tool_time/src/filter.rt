// `filter`: filters a picture of 640x352 samples, each time as it was at first; by the word `off` everything but the
// filter is done. What is printed are sums over the filtered samples.
ghost use Rattle.std.specs.Prelude.{◌≡◌, ◌≤◌, ◌*◌, IsTrue, length};
ghost use Rattle.std.specs.List.{All};

use deblock::deblock_picture;
use enc_tables::{MbKind, MbRecord, Motion, Vector};
use picture_planes::{Picture, Plane};
use std::alloc::{AllocError, Global};
use tool_input::Fault;

const SIZES: &str = "as large as the picture";

const WIDTH: u32 = 640;

const HEIGHT: u32 = 352;

// Samples with a step at each eighth column and row, small enough to be filtered.
fn samples(alloc: Global, width: u32, height: u32) -> Result<Vec<u8>, AllocError>
    requires width { width ≤ 4096 }
    requires height { height ≤ 4096 }
{
    let mut out = Vec::new(alloc);
    for y in 0..height {
        for x in 0..width {
            let step = (x / 8 * 7 + y / 8 * 5) % 12;
            let noise = (x * 31 + y * 17) % 4;
            out.push((90 + step + noise) as u8)?;
        }
    }
    Ok(out)
}

fn record() -> MbRecord {
    let still = Motion {
        refs: [-1, -1],
        vectors: [Vector { x: 0, y: 0 }; 2],
    };
    MbRecord {
        kind: MbKind::Intra4,
        transform8: false,
        modes: [0; 16],
        chroma_mode: 0,
        motion: [still; 4],
        mvd: [Vector { x: 0, y: 0 }; 8],
        luma_cbp: 0,
        chroma_cbp: 0,
        qp: 30,
        luma_dc: [0; 16],
        luma: [0; 256],
        chroma_dc: [0; 8],
        chroma_ac: [0; 120],
    }
}

fn records(alloc: Global) -> Result<Vec<MbRecord>, AllocError> {
    let mut records = Vec::new(alloc);
    for _ in 0..WIDTH / 16 * (HEIGHT / 16) {
        records.push(record())?;
    }
    Ok(records)
}

fn are_allowed(records: &[MbRecord]) -> bool
    ensures { IsTrue result → All (λ r. r.qp ≤ 51) records.now }
{
    records.iter().all(|record| record.qp <= 51)
}

fn has(plane: &Plane, samples: &[u8]) -> bool
    ensures { IsTrue result → length samples.now ≡ plane.now.height * plane.now.width }
{
    samples.len() == plane.height as usize * plane.width as usize
}

fn refresh(picture: &mut Picture, luma: &[u8], chroma: &[u8]) -> Result<(), Fault> {
    if !has(&picture.y, luma) || !has(&picture.cb, chroma) || !has(&picture.cr, chroma) {
        return Err(Fault::Input(SIZES));
    }
    let rows = picture.y.height;
    picture.y.set_rows(0, rows, luma);
    let rows = picture.cb.height;
    picture.cb.set_rows(0, rows, chroma);
    let rows = picture.cr.height;
    picture.cr.set_rows(0, rows, chroma);
    Ok(())
}

fn filter_once(picture: &mut Picture, records: &[MbRecord]) -> Result<(), Fault> {
    let count = picture.y.width as usize / 16 * (picture.y.height as usize / 16);
    if records.len() != count || !are_allowed(records) {
        return Err(Fault::Input(SIZES));
    }
    deblock_picture(picture, records, &[], &[]);
    Ok(())
}

fn sum_of(plane: &Plane) -> u32 {
    let mut sum = 0u32;
    for y in 0..plane.height {
        for sample in plane.row(y) {
            sum = sum.wrapping_mul(31).wrapping_add(*sample as u32);
        }
    }
    sum
}

fn repeat(alloc: Global, times: u32, with_filter: bool) -> Result<(u32, u32, u32), Fault> {
    let mut picture = Picture::new(alloc, WIDTH, HEIGHT)?;
    let luma = samples(alloc, WIDTH, HEIGHT)?;
    let chroma = samples(alloc, WIDTH / 2, HEIGHT / 2)?;
    let records = records(alloc)?;
    for _ in 0..times {
        refresh(&mut picture, luma.as_slice(), chroma.as_slice())?;
        if with_filter {
            filter_once(&mut picture, records.as_slice())?;
        }
    }
    Ok((sum_of(&picture.y), sum_of(&picture.cb), sum_of(&picture.cr)))
}

/// Filters the picture this often.
pub fn filter(rt: &HostRuntime, times: u32, with_filter: bool) -> Result<(), Fault> {
    let (y, cb, cr) = repeat(rt.alloc(), times, with_filter)?;
    println!(rt; "{y} {cb} {cr}")?;
    Ok(())
}
