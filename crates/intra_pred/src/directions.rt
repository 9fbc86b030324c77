// The modes of square luma blocks that predict along a direction.
ghost use Rattle.std.specs.Prelude.{◌≡◌, ℕ, ◌+◌, ◌-◌, ◌*◌, ◌/◌, ◌<◌, ◌≤◌, length, slice_index};
ghost use Rattle.spec_intra.specs.Directions.{vertical, horizontal, down_left, down_right, vertical_right, horizontal_down, vertical_left, horizontal_up};

use crate::blocks::Predictor;

#[inline]
pub fn smooth(a: u8, b: u8, c: u8) -> u8
    ensures { result ≡ (a + 2 * b + c + 2) / 4 }
{
    ((a as u16 + 2 * b as u16 + c as u16 + 2) >> 2) as u8
}

#[inline]
fn halfway(a: u8, b: u8) -> u8
    ensures { result ≡ (a + b + 1) / 2 }
{
    ((a as u16 + b as u16 + 1) >> 1) as u8
}

/// The neighbours of a block of n by n in one line: those at the left from below, the corner, those above.
#[derive(Clone, Copy)]
pub struct Edge<'a> {
    pub n: usize,
    pub samples: &'a [u8],
    ghost sized: { length samples.now ≡ 3 * n + 1 },
    ghost some: { 0 < n },
    ghost small: { n ≤ 8 },
}

/// Mode 0.
#[derive(Clone, Copy)]
pub struct Vertical<'a>(pub Edge<'a>);

/// Mode 1.
#[derive(Clone, Copy)]
pub struct Horizontal<'a>(pub Edge<'a>);

/// Mode 3.
#[derive(Clone, Copy)]
pub struct DownLeft<'a>(pub Edge<'a>);

/// Mode 4.
#[derive(Clone, Copy)]
pub struct DownRight<'a>(pub Edge<'a>);

/// Mode 5.
#[derive(Clone, Copy)]
pub struct VerticalRight<'a>(pub Edge<'a>);

/// Mode 6.
#[derive(Clone, Copy)]
pub struct HorizontalDown<'a>(pub Edge<'a>);

/// Mode 7.
#[derive(Clone, Copy)]
pub struct VerticalLeft<'a>(pub Edge<'a>);

/// Mode 8.
#[derive(Clone, Copy)]
pub struct HorizontalUp<'a>(pub Edge<'a>);

impl Predictor for Vertical<'_> {
    ghost use Rattle.intra_pred.specs.Views.{edge_of};

    ghost size = { λ p. p.0.n };

    ghost at = { λ p. vertical p.0.n (edge_of p.0) };

    #[tactic(auto, unfolding(spec_intra::specs::Directions::vertical))]
    fn sample(&self, x: usize, _y: usize) -> u8 {
        let n = self.0.n;
        let e = self.0.samples;
        e[n + 1 + x]
    }
}

impl Predictor for Horizontal<'_> {
    ghost use Rattle.intra_pred.specs.Views.{edge_of};

    ghost size = { λ p. p.0.n };

    ghost at = { λ p. horizontal p.0.n (edge_of p.0) };

    #[tactic(auto, unfolding(spec_intra::specs::Directions::horizontal))]
    fn sample(&self, _x: usize, y: usize) -> u8 {
        let n = self.0.n;
        let e = self.0.samples;
        e[n - 1 - y]
    }
}

impl Predictor for DownLeft<'_> {
    ghost use Rattle.intra_pred.specs.Views.{edge_of};

    ghost size = { λ p. p.0.n };

    ghost at = { λ p. down_left p.0.n (edge_of p.0) };

    #[tactic(auto, unfolding(spec_intra::specs::Directions::down_left))]
    fn sample(&self, x: usize, y: usize) -> u8 {
        let n = self.0.n;
        let e = self.0.samples;
        let k = n + 1 + x + y;
        smooth(e[k], e[k + 1], e[(k + 2).min(3 * n)])
    }
}

impl Predictor for DownRight<'_> {
    ghost use Rattle.intra_pred.specs.Views.{edge_of};

    ghost size = { λ p. p.0.n };

    ghost at = { λ p. down_right p.0.n (edge_of p.0) };

    #[tactic(auto, unfolding(spec_intra::specs::Directions::down_right))]
    fn sample(&self, x: usize, y: usize) -> u8 {
        let n = self.0.n;
        let e = self.0.samples;
        let k = n + x - y;
        smooth(e[k - 1], e[k], e[k + 1])
    }
}

impl Predictor for VerticalRight<'_> {
    ghost use Rattle.intra_pred.specs.Views.{edge_of};

    ghost size = { λ p. p.0.n };

    ghost at = { λ p. vertical_right p.0.n (edge_of p.0) };

    #[tactic(auto, unfolding(spec_intra::specs::Directions::vertical_right))]
    fn sample(&self, x: usize, y: usize) -> u8 {
        let n = self.0.n;
        let e = self.0.samples;
        if 2 * x + 1 < y {
            let k = n + 2 * x + 1 - y;
            return smooth(e[k - 1], e[k], e[k + 1]);
        }
        let k = n + x - y / 2;
        if y % 2 == 0 {
            halfway(e[k], e[k + 1])
        } else {
            smooth(e[k - 1], e[k], e[k + 1])
        }
    }
}

impl Predictor for HorizontalDown<'_> {
    ghost use Rattle.intra_pred.specs.Views.{edge_of};

    ghost size = { λ p. p.0.n };

    ghost at = { λ p. horizontal_down p.0.n (edge_of p.0) };

    #[tactic(auto, unfolding(spec_intra::specs::Directions::horizontal_down))]
    fn sample(&self, x: usize, y: usize) -> u8 {
        let n = self.0.n;
        let e = self.0.samples;
        if 2 * y + 1 < x {
            let k = n + x - 2 * y - 1;
            return smooth(e[k - 1], e[k], e[k + 1]);
        }
        let k = n + x / 2 - y;
        if x % 2 == 0 {
            halfway(e[k - 1], e[k])
        } else {
            smooth(e[k - 1], e[k], e[k + 1])
        }
    }
}

impl Predictor for VerticalLeft<'_> {
    ghost use Rattle.intra_pred.specs.Views.{edge_of};

    ghost size = { λ p. p.0.n };

    ghost at = { λ p. vertical_left p.0.n (edge_of p.0) };

    #[tactic(auto, unfolding(spec_intra::specs::Directions::vertical_left))]
    fn sample(&self, x: usize, y: usize) -> u8 {
        let n = self.0.n;
        let e = self.0.samples;
        let k = n + 1 + x + y / 2;
        if y % 2 == 0 {
            halfway(e[k], e[k + 1])
        } else {
            smooth(e[k], e[k + 1], e[k + 2])
        }
    }
}

impl Predictor for HorizontalUp<'_> {
    ghost use Rattle.intra_pred.specs.Views.{edge_of};

    ghost size = { λ p. p.0.n };

    ghost at = { λ p. horizontal_up p.0.n (edge_of p.0) };

    #[tactic(auto, unfolding(spec_intra::specs::Directions::horizontal_up))]
    fn sample(&self, x: usize, y: usize) -> u8 {
        let n = self.0.n;
        let e = self.0.samples;
        let k = y + x / 2;
        let here = e[n - 1 - k.min(n - 1)];
        let next = e[n - 1 - (k + 1).min(n - 1)];
        let then = e[n - 1 - (k + 2).min(n - 1)];
        if x % 2 == 0 {
            halfway(here, next)
        } else {
            smooth(here, next, then)
        }
    }
}

/// One value everywhere.
#[derive(Clone, Copy)]
pub struct Flat {
    pub n: usize,
    pub value: u8,
}

impl Predictor for Flat {
    ghost size = { λ p. p.n };

    ghost at = { λ p x y. p.value };

    fn sample(&self, _x: usize, _y: usize) -> u8 {
        self.value
    }
}
