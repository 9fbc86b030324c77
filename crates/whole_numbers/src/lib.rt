//! Whole numbers of a moderate size, as contracts see them: with no width. The transforms, planes of intra prediction
//! and the deblocking filter compute with them. Beside them the counts of macroblocks and blocks that many crates need.
#![tactic(auto)]

mod grids;

ghost use Rattle.std.specs.Prelude.{◌≡◌, ◌≤◌, ◌<◌, ◌^◌, ℕ, ℤ, pos, ◌+ℤ◌, ◌-ℤ◌, ◌*ℤ◌, ◌≤ℤ◌};
ghost use Rattle.std.specs.Int.{int_shr, int_min, int_max};
ghost use Rattle.spec_basics.specs.Bounds.{Within};
ghost use Rattle.spec_basics.specs.Clip.{clip1, clip3};

pub use grids::{block_number, in_macroblocks};
use std::marker::Model;

/// A number of 32 bits, which a contract sees as an integer: with no width.
#[derive(Clone, Copy)]
pub struct Whole {
    value: i32,
}

impl Model for Whole {
    ghost Value = { ℤ };

    ghost view = { λ c. c.value };

    ghost inverse = { λ z. record { value = z } };
}

impl Whole {
    #[inline(always)]
    pub fn new(value: i32) -> Whole
        ensures { result ≡ value }
    {
        Whole { value }
    }

    #[inline(always)]
    pub fn get(self) -> i32
        requires { Within 2147483647 self }
        ensures { result ≡ self }
    {
        self.value
    }

    #[inline(always)]
    pub fn plus(self, other: Whole) -> Whole
        requires { Within 2147483647 (self +ℤ other) }
        ensures { result ≡ self +ℤ other }
    {
        Whole {
            value: self.value + other.value,
        }
    }

    #[inline(always)]
    pub fn minus(self, other: Whole) -> Whole
        requires { Within 2147483647 (self -ℤ other) }
        ensures { result ≡ self -ℤ other }
    {
        Whole {
            value: self.value - other.value,
        }
    }

    #[inline(always)]
    pub fn times(self, factor: i32) -> Whole
        requires { Within 2147483647 (factor *ℤ self) }
        ensures { result ≡ factor *ℤ self }
    {
        Whole {
            value: factor * self.value,
        }
    }

    #[inline(always)]
    pub fn half(self) -> Whole
        ensures value { result ≡ int_shr self 1 }
        ensures low { self ≤ℤ (result +ℤ result +ℤ pos 1) }
        ensures high { (result +ℤ result) ≤ℤ self }
    {
        Whole {
            value: self.value >> 1,
        }
    }

    #[inline(always)]
    pub fn quarter(self) -> Whole
        ensures value { result ≡ int_shr self 2 }
        ensures low { self ≤ℤ ((pos 4 *ℤ result) +ℤ pos 3) }
        ensures high { (pos 4 *ℤ result) ≤ℤ self }
    {
        Whole {
            value: self.value >> 2,
        }
    }

    /// The nearest whole number to half of it.
    #[inline(always)]
    pub fn halved(self) -> Whole
        requires { Within 2147483615 self }
        ensures value { result ≡ int_shr (self +ℤ pos 1) 1 }
        ensures low { self ≤ℤ (result +ℤ result) }
        ensures high { (result +ℤ result) ≤ℤ (self +ℤ pos 1) }
    {
        Whole {
            value: (self.value + 1) >> 1,
        }
    }

    /// The nearest whole number to a 64th of it.
    #[inline(always)]
    pub fn sixty_fourth(self) -> Whole
        requires { Within 2147483615 self }
        ensures value { result ≡ int_shr (self +ℤ pos 32) 6 }
        ensures low { self ≤ℤ ((pos 64 *ℤ result) +ℤ pos 31) }
        ensures high { (pos 64 *ℤ result) ≤ℤ (self +ℤ pos 32) }
    {
        Whole {
            value: (self.value + 32) >> 6,
        }
    }

    /// The nearest whole number to a quarter of it.
    #[inline(always)]
    pub fn quartered(self) -> Whole
        requires { Within 2147483615 self }
        ensures value { result ≡ int_shr (self +ℤ pos 2) 2 }
        ensures low { self ≤ℤ ((pos 4 *ℤ result) +ℤ pos 1) }
        ensures high { (pos 4 *ℤ result) ≤ℤ (self +ℤ pos 2) }
    {
        Whole {
            value: (self.value + 2) >> 2,
        }
    }

    #[inline(always)]
    pub fn scaled(self, factor: u32) -> Whole
        requires factor { factor ≤ 2147483647 }
        requires fits { Within 2147483647 (self *ℤ pos factor) }
        ensures { result ≡ self *ℤ pos factor }
    {
        Whole {
            value: self.value * factor as i32,
        }
    }

    /// How far a is above b.
    #[inline]
    pub fn gap(a: u32, b: u32) -> Whole
        requires a_size { a < 2 ^ 16 }
        requires b_size { b < 2 ^ 16 }
        ensures { result ≡ pos a -ℤ pos b }
    {
        Whole {
            value: a as i32 - b as i32,
        }
    }

    /// An eighth of it, rounded down.
    #[inline]
    pub fn eighth(self) -> Whole
        ensures { result ≡ int_shr self 3 }
    {
        Whole {
            value: self.value >> 3,
        }
    }

    /// The nearest number from -t to t.
    #[inline]
    pub fn limited(self, t: u16) -> Whole
        ensures value { result ≡ clip3 (pos 0 -ℤ pos t) (pos t) self }
        ensures least { (pos 0 -ℤ pos t) ≤ℤ result }
        ensures most { result ≤ℤ pos t }
    {
        Whole {
            value: self.value.min(t as i32).max(-(t as i32)),
        }
    }

    /// The sample that is so far above p.
    #[inline]
    pub fn above(self, p: u8) -> u8
        requires low { (pos 0 -ℤ pos 300) ≤ℤ self }
        requires high { self ≤ℤ pos 300 }
        ensures { result ≡ clip1 (pos p +ℤ self) }
    {
        (p as i32 + self.value).clamp(0, 255) as u8
    }

    /// The sample that is so far below q.
    #[inline]
    pub fn below(self, q: u8) -> u8
        requires low { (pos 0 -ℤ pos 300) ≤ℤ self }
        requires high { self ≤ℤ pos 300 }
        ensures { result ≡ clip1 (pos q -ℤ self) }
    {
        (q as i32 - self.value).clamp(0, 255) as u8
    }

    /// The nearest sample to a 32nd of it, rounded down.
    #[inline]
    pub fn sample(self) -> u8
        ensures { result ≡ clip1 (int_shr self 5) }
    {
        (self.value >> 5).clamp(0, 255) as u8
    }
}
