// Sums of absolute differences.
ghost use Rattle.std.specs.Prelude.{◌≡◌, ◌≤◌, ◌*◌, ℕ, length};
ghost use Rattle.spec_basics.specs.Sums.{sad};

/// The sum of absolute differences of two blocks of at most 256 samples.
#[inline(always)]
#[tactic(auto, unfolding(spec_basics::specs::Sums::sum_below))]
pub fn difference(xs: &[u8], ys: &[u8]) -> u32
    requires same { length xs.now ≡ length ys.now }
    requires few { length xs.now ≤ 256 }
    ensures value { result ≡ sad xs.now ys.now }
    ensures small { result ≤ 255 * length xs.now }
{
    let mut sum = 0u32;
    for k in 0..xs.len() {
        sum += xs[k].abs_diff(ys[k]) as u32;
    }
    sum
}
