// The modes that predict the mean of the neighbours.
ghost use Rattle.std.specs.Prelude.{◌≡◌, ◌⊎◌, [], ℕ, cond, nat_lt, ◌==◌, ◌++◌, sum, ◌+◌, ◌-◌, ◌*◌, ◌/◌, ◌<◌, ◌≤◌, length, take, drop, slice_index};
ghost use Rattle.spec_intra.specs.Block.{block};
ghost use Rattle.spec_intra.specs.Means.{mean, mean_of_sides, first_there, chroma_beside, chroma_means, of_quarters};

use crate::blocks::{Predictor, block8};
use spec_intra::Avail;

#[inline]
fn total(xs: &[u8]) -> u32
    requires { length xs.now ≤ 16 }
    ensures value { result ≡ sum xs.now }
    ensures bound { result ≤ 255 * length xs.now }
{
    let mut all = 0;
    for x in xs {
        all += *x as u32;
    }
    all
}

#[inline]
#[tactic(auto, using(crate::proofs::Averages::mean_none, crate::proofs::Averages::mean_some))]
fn mean_of(a: &[u8], b: &[u8]) -> u8
    requires a_size { length a.now ≤ 16 }
    requires b_size { length b.now ≤ 16 }
    ensures { result ≡ mean (a.now ++ b.now) }
{
    let count = (a.len() + b.len()) as u32;
    if count == 0 {
        return 128;
    }
    ((total(a) + total(b) + count / 2) / count) as u8
}

#[inline]
fn where_there(there: bool, xs: &[u8]) -> &[u8]
    ensures { result.now ≡ cond there xs.now [] }
{
    if there { xs } else { &[] }
}

/// The rounded mean of the sides that there are; 128 where there is none.
#[inline]
#[tactic(auto, unfolding(spec_intra::specs::Means::mean_of_sides))]
pub fn mean_beside(avail: &Avail, above: &[u8], left: &[u8]) -> u8
    requires above_size { length above.now ≤ 16 }
    requires left_size { length left.now ≤ 16 }
    ensures { result ≡ mean_of_sides avail.now above.now left.now }
{
    mean_of(
        where_there(avail.above, above),
        where_there(avail.left, left),
    )
}

#[inline]
fn first_of_two<'a>(xs: &'a [u8], ys: &'a [u8]) -> &'a [u8]
    ensures { result.now ≡ first_there xs.now ys.now }
{
    if xs.len() > 0 { xs } else { ys }
}

// Four of a line of eight, or none of an empty one.
#[inline]
fn quarter(xs: &[u8], k: usize) -> &[u8]
    requires small { k < 2 }
    requires sized { (length xs.now ≡ 0) ⊎ (length xs.now ≡ 8) }
    ensures value { result.now ≡ take 4 (drop (4 * k) xs.now) }
    ensures few { length result.now ≤ 4 }
{
    if xs.len() == 0 {
        xs
    } else {
        &xs[4 * k..4 * k + 4]
    }
}

#[inline]
#[tactic(auto, unfolding(spec_intra::specs::Means::chroma_beside))]
fn quarter_mean(above: &[u8], left: &[u8], column: usize, row: usize) -> u8
    requires column { column < 2 }
    requires row { row < 2 }
    requires above_sized { (length above.now ≡ 0) ⊎ (length above.now ≡ 8) }
    requires left_sized { (length left.now ≡ 0) ⊎ (length left.now ≡ 8) }
    ensures { result ≡ mean (chroma_beside above.now left.now column row) }
{
    let a = quarter(above, column);
    let l = quarter(left, row);
    if column == row {
        return mean_of(a, l);
    }
    if row < column {
        mean_of(first_of_two(a, l), &[])
    } else {
        mean_of(first_of_two(l, a), &[])
    }
}

// One value in each 4x4 block of an 8x8 block.
#[derive(Clone, Copy)]
struct Quarters {
    values: [u8; 4],
}

impl Predictor for Quarters {
    ghost size = { λ p. 8 };

    ghost at = { λ p. of_quarters p.values };

    fn sample(&self, x: usize, y: usize) -> u8 {
        self.values[2 * (y / 4) + x / 4]
    }
}

/// Mode 0 of chroma.
#[inline]
#[tactic(auto, unfolding(spec_intra::specs::Means::chroma_means))]
pub fn chroma_of_means(avail: &Avail, above: &[u8; 8], left: &[u8; 8]) -> [u8; 64]
    ensures { result ≡ block 8 (of_quarters (chroma_means avail.now above.now left.now)) }
{
    let a = where_there(avail.above, above.as_slice());
    let l = where_there(avail.left, left.as_slice());
    let values = [
        quarter_mean(a, l, 0, 0),
        quarter_mean(a, l, 1, 0),
        quarter_mean(a, l, 0, 1),
        quarter_mean(a, l, 1, 1),
    ];
    block8(&Quarters { values })
}
