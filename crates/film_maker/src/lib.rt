//! Makes films from numbers: squares of noise that move from picture to picture.
#![tactic(auto)]

mod bands;
mod noise;
mod pictures;

ghost use Rattle.std.specs.Prelude.{◌≡◌, ◌≤◌, ◌^◌, IfOk};
ghost use Rattle.spec_film.specs.Written.{head_text};
ghost use Rattle.film_maker.specs.Made.{made_head, made_film};

use crate::pictures::push_pictures;
use arrayvec::ArrayString;
use itoa::Buffer;
use std::alloc::{AllocError as OutOfMemory, Global};

// The head line.
fn head_line(width: u32, height: u32) -> ArrayString<64>
    ensures { result.bytes ≡ head_text (made_head width height) }
{
    let mut line = ArrayString::new();
    let mut number = Buffer::new();
    line.push_str("YUV4MPEG2 W");
    line.push_str(number.format(width));
    line.push_str(" H");
    line.push_str(number.format(height));
    line.push_str(" F25:1 Ip C420\n");
    line
}

// How many bytes the pictures have, each with its line.
fn pictures_len(width: u32, height: u32, count: u32) -> usize
    requires width { width ≤ 1920 }
    requires height { height ≤ 1088 }
    requires count { count ≤ 300 }
    ensures { result ≤ 2 ^ 40 }
{
    let luma = width as usize * height as usize;
    let chroma = (width / 2) as usize * (height / 2) as usize;
    count as usize * (6 + luma + 2 * chroma)
}

/// The film that a number makes: `count` pictures, at most 300, each of at most 1920 by 1088 luma
/// samples, with 25 pictures per second, as the bytes of a film as it is written. Where a size is
/// odd, the chroma planes have half of it, rounded down. The room is taken at once. `OutOfMemory`:
/// it could not be had.
pub fn make(
    alloc: Global,
    seed: u64,
    width: u32,
    height: u32,
    count: u32,
) -> Result<Vec<u8>, OutOfMemory>
    requires width { width ≤ 1920 }
    requires height { height ≤ 1088 }
    requires count { count ≤ 300 }
    ensures { IfOk result (λ film. film.items ≡ made_film seed width height count) }
{
    let head = head_line(width, height);
    let room = head.len() + pictures_len(width, height, count);
    let mut film = Vec::with_capacity(alloc, room)?;
    film.extend_from_slice(head.as_bytes())?;
    push_pictures(&mut film, seed, width, height, count)?;
    Ok(film)
}
