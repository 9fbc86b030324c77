// The line of a block's neighbours, made once for all modes.
ghost use Rattle.std.specs.Prelude.{◌≡◌, ℕ, cond, ◌+◌, ◌-◌, ◌*◌, ◌/◌, ◌<◌, ◌≤◌, length, slice_index, min, take, drop};
ghost use Rattle.spec_intra.specs.Directions.{edge_at};
ghost use Rattle.spec_intra.specs.Smoothing.{has_before, has_after, smoothed, smoothed_at};
ghost use Rattle.spec_intra.specs.Means.{mean_of_sides};
ghost use Rattle.spec_intra.specs.Predictions.{edge4, edge8, from_edge};

use crate::blocks::{block4, block8};
use crate::directions::{
    DownLeft, DownRight, Edge, Flat, Horizontal, HorizontalDown, HorizontalUp, Vertical,
    VerticalLeft, VerticalRight, smooth,
};
use crate::means::mean_beside;
use spec_intra::{Avail, Nb4, Nb8};

/// The neighbours of a 4x4 block in one line: those at the left from the lowest upwards, the corner, those above.
#[derive(Clone, Copy)]
pub struct Line4 {
    /// The line.
    pub samples: [u8; 13],
    /// Which of the neighbours there are.
    pub avail: Avail,
}

/// The smoothed neighbours of an 8x8 block in one line (clause 8.3.2.2.1): those at the left from the lowest upwards,
/// the corner, those above.
#[derive(Clone, Copy)]
pub struct Line8 {
    /// The line.
    pub samples: [u8; 25],
    /// Which of the neighbours there are.
    pub avail: Avail,
}

#[inline]
fn last_above(beyond: bool, n: usize, k: usize) -> usize
    requires { 0 < n }
    ensures { result ≡ cond beyond k (min k (n - 1)) }
{
    if beyond { k } else { k.min(n - 1) }
}

#[inline]
fn raw4(nb: &Nb4, j: usize) -> u8
    requires { j < 13 }
    ensures { result ≡ edge_at 4 nb.now.left nb.now.corner nb.now.above nb.now.avail.above_right j }
{
    if j < 4 {
        nb.left[3 - j]
    } else if j == 4 {
        nb.corner
    } else {
        nb.above[last_above(nb.avail.above_right, 4, j - 5)]
    }
}

#[inline]
fn raw8(nb: &Nb8, j: usize) -> u8
    requires { j < 25 }
    ensures { result ≡ edge_at 8 nb.now.left nb.now.corner nb.now.above nb.now.avail.above_right j }
{
    if j < 8 {
        nb.left[7 - j]
    } else if j == 8 {
        nb.corner
    } else {
        nb.above[last_above(nb.avail.above_right, 8, j - 9)]
    }
}

#[inline]
fn before(avail: &Avail, j: usize) -> usize
    ensures value { result ≡ cond (has_before avail.now j) (j - 1) j }
    ensures near { result ≤ j }
{
    if j != 0 && (j != 9 || avail.corner) && (j != 8 || avail.left) {
        j - 1
    } else {
        j
    }
}

#[inline]
fn after(avail: &Avail, j: usize) -> usize
    requires { j < 25 }
    ensures value { result ≡ cond (has_after avail.now j) (j + 1) j }
    ensures near { result < 25 }
{
    if j != 24 && (j != 7 || avail.corner) && (j != 8 || avail.above) {
        j + 1
    } else {
        j
    }
}

#[inline]
fn smoothed8(avail: &Avail, raw: &[u8; 25], j: usize) -> u8
    requires { j < 25 }
    ensures { result ≡ smoothed_at avail.now raw.now j }
{
    smooth(raw[before(avail, j)], raw[j], raw[after(avail, j)])
}

#[inline]
#[tactic(auto, using(crate::proofs::Filled::lined_more, crate::proofs::Filled::lined_all), unfolding(spec_intra::specs::Smoothing::smoothed))]
fn smooth_line(avail: &Avail, raw: &[u8; 25]) -> [u8; 25]
    ensures { result ≡ smoothed avail.now raw.now }
{
    let mut out = [0; 25];
    for k in 0..25 {
        out[k] = smoothed8(avail, raw, k);
    }
    out
}

#[inline]
#[tactic(auto, using(crate::proofs::Filled::lined_more, crate::proofs::Filled::lined_all), unfolding(spec_intra::specs::Predictions::edge4))]
fn raw_line4(nb: &Nb4) -> [u8; 13]
    ensures { result ≡ edge4 nb.now }
{
    let mut raw = [0; 13];
    for j in 0..13 {
        raw[j] = raw4(nb, j);
    }
    raw
}

#[inline]
#[tactic(auto, using(crate::proofs::Filled::lined_more, crate::proofs::Filled::lined_all), unfolding(spec_intra::specs::Predictions::edge8))]
fn smoothed_line8(nb: &Nb8) -> [u8; 25]
    ensures { result ≡ edge8 nb.now }
{
    let mut raw = [0; 25];
    for j in 0..25 {
        raw[j] = raw8(nb, j);
    }
    smooth_line(&nb.avail, &raw)
}

#[inline]
fn mean_of_edge(edge: Edge, avail: &Avail) -> u8
    ensures { result ≡ mean_of_sides avail.now (take edge.entry.n (drop (edge.entry.n + 1) edge.entry.samples.now)) (take edge.entry.n edge.entry.samples.now) }
{
    let n = edge.n;
    mean_beside(avail, &edge.samples[n + 1..n + 1 + n], &edge.samples[..n])
}

impl Line4 {
    /// The line of a block's neighbours.
    pub fn of(nb: &Nb4) -> Line4
        ensures samples { result.samples ≡ edge4 nb.now }
        ensures avail { result.avail ≡ nb.now.avail }
    {
        Line4 {
            samples: raw_line4(nb),
            avail: nb.avail,
        }
    }

    /// The block in one of the nine modes (clause 8.3.1.2), which has to be allowed.
    #[tactic(auto, unfolding(spec_intra::specs::Predictions::from_edge))]
    pub fn pred(&self, mode: u8) -> [u8; 16]
        requires { mode < 9 }
        ensures { result ≡ from_edge 4 mode self.now.avail self.now.samples }
    {
        let edge = Edge {
            n: 4,
            samples: &self.samples,
        };
        match mode {
            0 => block4(&Vertical(edge)),
            1 => block4(&Horizontal(edge)),
            2 => block4(&Flat {
                n: 4,
                value: mean_of_edge(edge, &self.avail),
            }),
            3 => block4(&DownLeft(edge)),
            4 => block4(&DownRight(edge)),
            5 => block4(&VerticalRight(edge)),
            6 => block4(&HorizontalDown(edge)),
            7 => block4(&VerticalLeft(edge)),
            _ => block4(&HorizontalUp(edge)),
        }
    }
}

impl Line8 {
    /// The smoothed line of a block's neighbours.
    pub fn of(nb: &Nb8) -> Line8
        ensures samples { result.samples ≡ edge8 nb.now }
        ensures avail { result.avail ≡ nb.now.avail }
    {
        Line8 {
            samples: smoothed_line8(nb),
            avail: nb.avail,
        }
    }

    /// The block in one of the nine modes (clause 8.3.2.2), which has to be allowed.
    #[tactic(auto, unfolding(spec_intra::specs::Predictions::from_edge))]
    pub fn pred(&self, mode: u8) -> [u8; 64]
        requires { mode < 9 }
        ensures { result ≡ from_edge 8 mode self.now.avail self.now.samples }
    {
        let edge = Edge {
            n: 8,
            samples: &self.samples,
        };
        match mode {
            0 => block8(&Vertical(edge)),
            1 => block8(&Horizontal(edge)),
            2 => block8(&Flat {
                n: 8,
                value: mean_of_edge(edge, &self.avail),
            }),
            3 => block8(&DownLeft(edge)),
            4 => block8(&DownRight(edge)),
            5 => block8(&VerticalRight(edge)),
            6 => block8(&HorizontalDown(edge)),
            7 => block8(&VerticalLeft(edge)),
            _ => block8(&HorizontalUp(edge)),
        }
    }
}
