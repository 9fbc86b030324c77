// Planes through the neighbours.
ghost use Rattle.std.specs.Prelude.{◌≡◌, ◌⊎◌, ℕ, ℤ, pos, ◌+ℤ◌, ◌-ℤ◌, ◌*ℤ◌, ◌≤ℤ◌, ◌+◌, ◌-◌, ◌*◌, ◌/◌, ◌<◌, ◌≤◌, length, slice_index};
ghost use Rattle.spec_intra.specs.Slopes.{tilt, slope, plane_at, plane};
ghost use Rattle.spec_intra.specs.Block.{block};

use crate::blocks::{Predictor, block8, block16};
use whole_numbers::Whole;

#[inline]
#[tactic(auto, unfolding(spec_intra::specs::Slopes::tilt, spec_basics::specs::Sums::sum_below))]
fn tilt_of(samples: &[u8], h: usize) -> i32
    requires sized { length samples.now ≡ 2 * h + 1 }
    requires small { h ≤ 8 }
    ensures value { result ≡ tilt h samples.now }
    ensures low { (pos 0 -ℤ pos 18360) ≤ℤ result }
    ensures high { result ≤ℤ pos 18360 }
{
    let mut up = 0u32;
    let mut down = 0u32;
    for i in 0..h + 1 {
        up += i as u32 * samples[h + i] as u32;
        down += i as u32 * samples[h - i] as u32;
    }
    up as i32 - down as i32
}

#[inline]
#[tactic(auto, unfolding(spec_intra::specs::Slopes::slope))]
fn slope_of(weight: i32, samples: &[u8], h: usize) -> i32
    requires weight { (weight ≡ pos 5) ⊎ (weight ≡ pos 34) }
    requires sized { length samples.now ≡ 2 * h + 1 }
    requires small { h ≤ 8 }
    ensures value { (w : ℕ) → weight ≡ pos w → result ≡ slope w h samples.now }
    ensures low { (pos 0 -ℤ pos 10000) ≤ℤ result }
    ensures high { result ≤ℤ pos 10000 }
{
    (weight * tilt_of(samples, h) + 32) >> 6
}

// The slope times the distance from the middle.
#[inline]
fn rise(slope: Whole, x: usize, h: usize) -> Whole
    requires small { h ≤ 8 }
    requires inside { x < 2 * h }
    requires low { (pos 0 -ℤ pos 10000) ≤ℤ slope }
    requires high { slope ≤ℤ pos 10000 }
    ensures value { result ≡ slope *ℤ (pos (x + 1) -ℤ pos h) }
    ensures low { (pos 0 -ℤ pos 80000) ≤ℤ (slope *ℤ (pos (x + 1) -ℤ pos h)) }
    ensures high { (slope *ℤ (pos (x + 1) -ℤ pos h)) ≤ℤ pos 80000 }
{
    Whole::new(slope.get() * ((x + 1) as i32 - h as i32))
}

#[inline]
fn height(ends: u32, across: Whole, down: Whole) -> Whole
    requires few { ends ≤ 510 }
    requires a_low { (pos 0 -ℤ pos 80000) ≤ℤ across }
    requires a_high { across ≤ℤ pos 80000 }
    requires d_low { (pos 0 -ℤ pos 80000) ≤ℤ down }
    requires d_high { down ≤ℤ pos 80000 }
    ensures value { result ≡ pos (16 * ends) +ℤ across +ℤ down +ℤ pos 16 }
{
    Whole::new((16 * ends) as i32 + across.get() + down.get() + 16)
}

#[derive(Clone, Copy)]
pub struct Plane {
    h: usize,
    ends: u32,
    b: Whole,
    c: Whole,
    ghost small: { h ≤ 8 },
    ghost few: { ends ≤ 510 },
    ghost b_low: { (pos 0 -ℤ pos 10000) ≤ℤ b },
    ghost b_high: { b ≤ℤ pos 10000 },
    ghost c_low: { (pos 0 -ℤ pos 10000) ≤ℤ c },
    ghost c_high: { c ≤ℤ pos 10000 },
}

impl Predictor for Plane {
    ghost use Rattle.intra_pred.specs.Views.{plane_view};

    ghost size = { λ p. 2 * p.h };

    ghost at = { plane_view };

    #[tactic(auto, unfolding(spec_intra::specs::Slopes::plane_at))]
    fn sample(&self, x: usize, y: usize) -> u8 {
        height(self.ends, rise(self.b, x, self.h), rise(self.c, y, self.h)).sample()
    }
}

#[inline]
pub fn plane16(above: &[u8; 17], left: &[u8; 17]) -> [u8; 256]
    ensures { result ≡ block 16 (plane 5 8 above.now left.now) }
{
    let b = Whole::new(slope_of(5, above, 8));
    let c = Whole::new(slope_of(5, left, 8));
    block16(&Plane {
        h: 8,
        ends: above[16] as u32 + left[16] as u32,
        b,
        c,
    })
}

/// Mode 3 of chroma (clause 8.3.4.4).
#[inline]
pub fn plane8(above: &[u8; 9], left: &[u8; 9]) -> [u8; 64]
    ensures { result ≡ block 8 (plane 34 4 above.now left.now) }
{
    let b = Whole::new(slope_of(34, above, 4));
    let c = Whole::new(slope_of(34, left, 4));
    block8(&Plane {
        h: 4,
        ends: above[8] as u32 + left[8] as u32,
        b,
        c,
    })
}
