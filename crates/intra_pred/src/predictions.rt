// The predicted block of each kind.
ghost use Rattle.std.specs.Prelude.{◌≡◌, ℕ, ◌<◌, ◌∷◌, slice_index, length};
ghost use Rattle.spec_intra.specs.Block.{block};
ghost use Rattle.spec_intra.specs.Predictions.{predicted4, predicted8, predicted16, predicted_chroma};

use crate::blocks::{Predictor, block8, block16};
use crate::directions::Flat;
use crate::lines::{Line4, Line8};
use crate::means::{chroma_of_means, mean_beside};
use crate::planes::{plane8, plane16};
use spec_intra::{Nb4, Nb8, Nb16, NbC};

/// The prediction of a 4x4 luma block, row by row (ITU-T H.264, clause 8.3.1.2): 0 vertical, 1 horizontal, 2 mean, 3
/// diagonal down left, 4 diagonal down right, 5 vertical right, 6 horizontal down, 7 vertical left, 8 horizontal up.
/// The mode has to be allowed.
pub fn pred4(mode: u8, nb: &Nb4) -> [u8; 16]
    requires { mode < 9 }
    ensures { result ≡ predicted4 mode nb.now }
{
    Line4::of(nb).pred(mode)
}

/// The prediction of an 8x8 luma block, row by row (clause 8.3.2.2): the modes are those of 4x4, and the neighbours are
/// smoothed. The mode has to be allowed.
pub fn pred8(mode: u8, nb: &Nb8) -> [u8; 64]
    requires { mode < 9 }
    ensures { result ≡ predicted8 mode nb.now }
{
    Line8::of(nb).pred(mode)
}

// One row, again and again.
#[derive(Clone, Copy)]
struct Rows<'a> {
    n: usize,
    row: &'a [u8],
    ghost sized: { length row.now ≡ n },
}

// One column, again and again.
#[derive(Clone, Copy)]
struct Columns<'a> {
    n: usize,
    column: &'a [u8],
    ghost sized: { length column.now ≡ n },
}

impl Predictor for Rows<'_> {
    ghost size = { λ p. p.n };

    ghost at = { λ p x y. slice_index p.row.now x };

    fn sample(&self, x: usize, _y: usize) -> u8 {
        self.row[x]
    }
}

impl Predictor for Columns<'_> {
    ghost size = { λ p. p.n };

    ghost at = { λ p x y. slice_index p.column.now y };

    fn sample(&self, _x: usize, y: usize) -> u8 {
        self.column[y]
    }
}

/// The prediction of a luma macroblock, row by row (clause 8.3.3): 0 vertical, 1 horizontal, 2 mean, 3 plane. The mode
/// has to be allowed.
#[tactic(auto, unfolding(spec_intra::specs::Predictions::predicted16))]
pub fn pred16(mode: u8, nb: &Nb16) -> [u8; 256]
    requires { mode < 4 }
    ensures { result ≡ predicted16 mode nb.now }
{
    match mode {
        0 => block16(&Rows {
            n: 16,
            row: &nb.above,
        }),
        1 => block16(&Columns {
            n: 16,
            column: &nb.left,
        }),
        2 => block16(&Flat {
            n: 16,
            value: mean_beside(&nb.avail, &nb.above, &nb.left),
        }),
        _ => plane16(
            &corner_first16(nb.corner, &nb.above),
            &corner_first16(nb.corner, &nb.left),
        ),
    }
}

/// The prediction of a macroblock in a chroma component, row by row (clause 8.3.4): 0 means, 1 horizontal, 2 vertical,
/// 3 plane. The mode has to be allowed.
#[tactic(auto, unfolding(spec_intra::specs::Predictions::predicted_chroma))]
pub fn pred_chroma(mode: u8, nb: &NbC) -> [u8; 64]
    requires { mode < 4 }
    ensures { result ≡ predicted_chroma mode nb.now }
{
    match mode {
        0 => chroma_of_means(&nb.avail, &nb.above, &nb.left),
        1 => block8(&Columns {
            n: 8,
            column: &nb.left,
        }),
        2 => block8(&Rows {
            n: 8,
            row: &nb.above,
        }),
        _ => plane8(
            &corner_first8(nb.corner, &nb.above),
            &corner_first8(nb.corner, &nb.left),
        ),
    }
}

fn corner_first16(corner: u8, side: &[u8; 16]) -> [u8; 17]
    ensures { result ≡ corner ∷ side.now }
{
    let mut line = [corner; 17];
    line[1..].copy_from_slice(side);
    line
}

fn corner_first8(corner: u8, side: &[u8; 8]) -> [u8; 9]
    ensures { result ≡ corner ∷ side.now }
{
    let mut line = [corner; 9];
    line[1..].copy_from_slice(side);
    line
}
