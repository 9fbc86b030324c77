// Pictures, whose rows are cut from bands.
ghost use Rattle.std.specs.Prelude.{◌≡◌, ◌≤◌, ◌++◌, IfOk, map};
ghost use Rattle.std.specs.List.{range_with_len, flat_map};
ghost use Rattle.spec_film.specs.Written.{picture_text};
ghost use Rattle.film_maker.specs.Bands.{IsBand, IsHalfBand, rows_cut, luma_place, chroma_place, cb_of, cr_of};
ghost use Rattle.film_maker.specs.Made.{noise_of, made_picture};

use crate::bands::{CHROMA_BAND, LUMA_BAND, cb_band, cr_band, luma_band};
use crate::noise::noise;
use std::alloc::AllocError as OutOfMemory;

// Appends the luma of picture `t`.
fn push_luma(
    film: &mut Vec<u8>,
    band: &[u8; LUMA_BAND],
    t: u32,
    width: u32,
    height: u32,
) -> Result<(), OutOfMemory>
    requires t { t ≤ 300 }
    requires width { width ≤ 1920 }
    requires height { height ≤ 1088 }
    ensures { IfOk result (λ _. film.new.items ≡ film.old.items ++ rows_cut (luma_place t) width height band.now) }
{
    for y in 0..height {
        let place = (1984 * ((y + t) % 64 / 8) + 2 * t % 64) as usize;
        film.extend_from_slice(&band[place..place + width as usize])?;
    }
    Ok(())
}

// Appends one plane of the chroma of picture `t`.
fn push_chroma(
    film: &mut Vec<u8>,
    band: &[u8; CHROMA_BAND],
    t: u32,
    width: u32,
    height: u32,
) -> Result<(), OutOfMemory>
    requires t { t ≤ 300 }
    requires width { width ≤ 960 }
    requires height { height ≤ 544 }
    ensures { IfOk result (λ _. film.new.items ≡ film.old.items ++ rows_cut (chroma_place t) width height band.now) }
{
    for y in 0..height {
        let place = (992 * ((2 * y + t) % 64 / 8) + t % 32) as usize;
        film.extend_from_slice(&band[place..place + width as usize])?;
    }
    Ok(())
}

/// Appends the pictures of a film, each with its line.
pub(crate) fn push_pictures(
    film: &mut Vec<u8>,
    seed: u64,
    width: u32,
    height: u32,
    count: u32,
) -> Result<(), OutOfMemory>
    requires width { width ≤ 1920 }
    requires height { height ≤ 1088 }
    requires count { count ≤ 300 }
    ensures { IfOk result (λ _. film.new.items ≡ film.old.items ++ flat_map picture_text (map (made_picture (noise_of seed) width height) (range_with_len 0 count))) }
{
    let noise = noise(seed);
    let luma = luma_band(&noise);
    let cb = cb_band(&luma);
    let cr = cr_band(&luma);
    for t in 0..count {
        film.extend_from_slice(b"FRAME\n")?;
        push_luma(film, &luma, t, width, height)?;
        push_chroma(film, &cb, t, width / 2, height / 2)?;
        push_chroma(film, &cr, t, width / 2, height / 2)?;
    }
    Ok(())
}
