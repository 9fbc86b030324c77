// From the caller's numbers to those that contracts see as integers, and back.
ghost use Rattle.std.specs.Prelude.{◌≡◌, ℕ, ◌<◌, ◌+◌, ◌*◌, length};
ghost use Rattle.spec_residual.specs.Blocks.{AllWithin, item, rounded};

use whole_numbers::Whole;

#[inline(always)]
pub fn widened<const N: usize>(r: &[i16; N]) -> [Whole; N]
    ensures { result ≡ r.now }
{
    let mut out = [Whole::new(0); N];
    for p in 0..N {
        out[p] = Whole::new(r[p] as i32);
    }
    out
}

#[inline(always)]
pub fn coefs<const N: usize>(c: &[i32; N]) -> [Whole; N]
    ensures { result ≡ c.now }
{
    let mut out = [Whole::new(0); N];
    for p in 0..N {
        out[p] = Whole::new(c[p]);
    }
    out
}

#[inline(always)]
pub fn numbers<const N: usize>(x: &[Whole; N]) -> [i32; N]
    requires { AllWithin N 2147483647 x.now }
    ensures { result ≡ x.now }
{
    let mut out = [0i32; N];
    for p in 0..N {
        out[p] = x[p].get();
    }
    out
}

// The nearest whole numbers to half of each.
#[inline(always)]
pub fn halves<const N: usize>(x: &[Whole; N]) -> [i32; N]
    requires { AllWithin N 1000000000 x.now }
    ensures { (p : ℕ) → p < N → item result p ≡ rounded 0 (item x.now p) }
{
    let mut out = [0i32; N];
    for p in 0..N {
        out[p] = x[p].halved().get();
    }
    out
}

// The nearest whole numbers to a 64th of each.
#[inline(always)]
pub fn sixty_fourths<const N: usize>(x: &[Whole; N]) -> [i32; N]
    requires { AllWithin N 1000000000 x.now }
    ensures { (p : ℕ) → p < N → item result p ≡ rounded 5 (item x.now p) }
{
    let mut out = [0i32; N];
    for p in 0..N {
        out[p] = x[p].sixty_fourth().get();
    }
    out
}
