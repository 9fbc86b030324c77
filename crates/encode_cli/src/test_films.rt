// What the tests of the commands share: films, runs, and sums of what they write.
use crate::outcome::Outcome;
use crate::run::run;
use enc_edge::{Gate, MemStudio, Out, Studio};
use std::alloc::{AllocError, Global};

/// The outputs in order.
pub const OUTS: [Out; 3] = [Out::Stream, Out::Recon, Out::Report];

fn push_grey(film: &mut Vec<u8>, samples: u32) -> Result<(), AllocError> {
    film.extend_from_slice(b"FRAME\n")?;
    for _ in 0..samples {
        film.push(0x80)?;
    }
    Ok(())
}

/// A film of grey pictures behind this head; the three planes of a picture have so many samples together.
pub fn grey_film(
    alloc: Global,
    head: &[u8],
    samples: u32,
    pictures: u32,
) -> Result<Vec<u8>, AllocError> {
    let mut film = head.to_vec(alloc)?;
    for _ in 0..pictures {
        push_grey(&mut film, samples)?;
    }
    Ok(film)
}

// Bands of 16 rows that move by 0, 1, 2 and more columns a picture, each of curves over stripes.
fn luma_at(x: u32, y: u32, time: u32) -> u8 {
    let moved = x.wrapping_add(time.wrapping_mul(y / 16));
    let curve = (moved.wrapping_mul(moved) / 4)
        .wrapping_add(moved.wrapping_mul(y) / 2)
        .wrapping_add(y.wrapping_mul(7));
    let stripe = moved / 8 % 2;
    (curve % 160 + 30 * stripe + 20) as u8
}

// The sample of luma, Cb or Cr.
fn sample_at(plane: u8, x: u32, y: u32, time: u32) -> u8 {
    match plane {
        0 => luma_at(x, y, time),
        1 => luma_at(x.wrapping_mul(2), y.wrapping_mul(2), time) / 2 + 64,
        _ => 255 - luma_at(x.wrapping_mul(2), y.wrapping_mul(2), time),
    }
}

fn push_row(
    film: &mut Vec<u8>,
    plane: u8,
    width: u32,
    y: u32,
    time: u32,
) -> Result<(), AllocError> {
    for x in 0..width {
        film.push(sample_at(plane, x, y, time))?;
    }
    Ok(())
}

fn push_plane(
    film: &mut Vec<u8>,
    plane: u8,
    width: u32,
    height: u32,
    time: u32,
) -> Result<(), AllocError> {
    for y in 0..height {
        push_row(film, plane, width, y, time)?;
    }
    Ok(())
}

/// A film behind this head, whose pictures have this size and move.
pub fn moving_film(
    alloc: Global,
    head: &[u8],
    width: u32,
    height: u32,
    pictures: u32,
) -> Result<Vec<u8>, AllocError> {
    let mut film = head.to_vec(alloc)?;
    for time in 0..pictures {
        film.extend_from_slice(b"FRAME\n")?;
        push_plane(&mut film, 0, width, height, time)?;
        push_plane(&mut film, 1, width / 2, height / 2, time)?;
        push_plane(&mut film, 2, width / 2, height / 2, time)?;
    }
    Ok(film)
}

/// A studio over this film, whose calls don't fail.
pub fn studio_of(alloc: Global, film: Vec<u8>) -> Result<MemStudio, AllocError> {
    MemStudio::new(alloc, film, 10_000_000, 4096, Vec::new(alloc))
}

// The words of both texts, which are parted by blanks.
fn words_of<'a>(alloc: Global, front: &'a str, more: &'a str) -> Result<Vec<&'a str>, AllocError> {
    let mut words: Vec<&'a str> = front.split_whitespace().collect(alloc)?;
    for word in more.split_whitespace() {
        words.push(word)?;
    }
    Ok(words)
}

/// Runs the words of both texts, which are parted by blanks.
pub fn run_words<S: Studio, G: Gate + Sync>(
    rt: &HostRuntime,
    front: &str,
    more: &str,
    studio: &mut S,
    gate: &G,
) -> Result<Outcome, AllocError> {
    let words = words_of(rt.alloc(), front, more)?;
    Ok(run(rt, words.as_slice(), studio, gate))
}

// FNV-1a over these bytes, begun with a sum.
fn added(sum: u64, bytes: &[u8]) -> u64 {
    let mut sum = sum;
    for byte in bytes {
        sum = (sum ^ *byte as u64).wrapping_mul(0x0000_0100_0000_01B3);
    }
    sum
}

/// FNV-1a over the stream, the reconstruction and the report, one after another.
pub fn sum_of(studio: &MemStudio) -> u64 {
    let mut sum = 0xCBF2_9CE4_8422_2325;
    for out in OUTS {
        sum = added(sum, studio.written(out));
    }
    sum
}
