// Blocks, filled place by place.
ghost use Rattle.std.specs.Prelude.{◌≡◌, ℕ, ◌<◌};
ghost use Rattle.spec_intra.specs.Block.{block};

/// What stands at each place of a square block.
pub trait Predictor {
    ghost size: { Self → ℕ };

    ghost at: { Self → ℕ → ℕ → ℕ };

    /// The sample at column `x` of row `y`.
    fn sample(&self, x: usize, y: usize) -> u8
        requires column { x < size self.now }
        requires row { y < size self.now }
        ensures { result ≡ at self.now x y };
}

#[inline]
pub fn block4<P: Predictor>(p: &P) -> [u8; 16]
    requires { P.size p.now ≡ 4 }
    ensures { result ≡ block 4 (P.at p.now) }
{
    let mut out = [0; 16];
    for k in 0..16 {
        out[k] = p.sample(k % 4, k / 4);
    }
    out
}

#[inline]
pub fn block8<P: Predictor>(p: &P) -> [u8; 64]
    requires { P.size p.now ≡ 8 }
    ensures { result ≡ block 8 (P.at p.now) }
{
    let mut out = [0; 64];
    for k in 0..64 {
        out[k] = p.sample(k % 8, k / 8);
    }
    out
}

#[inline]
pub fn block16<P: Predictor>(p: &P) -> [u8; 256]
    requires { P.size p.now ≡ 16 }
    ensures { result ≡ block 16 (P.at p.now) }
{
    let mut out = [0; 256];
    for k in 0..256 {
        out[k] = p.sample(k % 16, k / 16);
    }
    out
}
