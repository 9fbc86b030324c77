// Rows that all rows of a film's planes are parts of.
ghost use Rattle.std.specs.Prelude.{◌≡◌, length, All};
ghost use Rattle.film_maker.specs.Bands.{IsBand, IsHalfBand, cb_of, cr_of};

// The longest row, and the squares of a row once more before it, but for the last.
const LUMA_ROW: usize = 1984;

const CHROMA_ROW: usize = LUMA_ROW / 2;

/// How many samples a band of luma has, in eight rows.
pub(crate) const LUMA_BAND: usize = 8 * LUMA_ROW;

/// How many samples a band of Cb or Cr has, in eight rows.
pub(crate) const CHROMA_BAND: usize = 8 * CHROMA_ROW;

/// Row i of the band has the squares of row i of the noise, eight samples a square, over and over.
pub(crate) fn luma_band(noise: &[u8; 64]) -> [u8; LUMA_BAND]
    ensures { IsBand noise.now result }
{
    let mut band = [0; LUMA_BAND];
    for k in 0..LUMA_BAND {
        band[k] = noise[8 * (k / LUMA_ROW) + k % LUMA_ROW % 64 / 8];
    }
    band
}

/// Cb by every second sample of luma.
pub(crate) fn cb_band(luma: &[u8; LUMA_BAND]) -> [u8; CHROMA_BAND]
    ensures { IsHalfBand cb_of luma.now result }
{
    let mut band = [0; CHROMA_BAND];
    for k in 0..CHROMA_BAND {
        band[k] = luma[2 * k] / 2 + 64;
    }
    band
}

/// Cr by every second sample of luma.
pub(crate) fn cr_band(luma: &[u8; LUMA_BAND]) -> [u8; CHROMA_BAND]
    ensures { IsHalfBand cr_of luma.now result }
{
    let mut band = [0; CHROMA_BAND];
    for k in 0..CHROMA_BAND {
        band[k] = 255 - luma[2 * k];
    }
    band
}
