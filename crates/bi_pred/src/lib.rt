//! Prediction from both lists (ITU-T H.264, clause 8.4.2.3.1).
#![tactic(auto)]

ghost use Rattle.std.specs.Prelude.{◌≡◌, length};
ghost use Rattle.bi_pred.specs.Averages.{averaged};

/// The default weighted prediction from two lists: each sample of `out` is the rounded mean of the samples of `a` and
/// `b`, which have its length.
pub fn average(a: &[u8], b: &[u8], out: &mut [u8])
    requires first { length a.now ≡ length out.old }
    requires second { length b.now ≡ length out.old }
    ensures { out.new ≡ averaged a.now b.now }
{
    for i in 0..out.len() {
        out[i] = ((a[i] as u16 + b[i] as u16 + 1) / 2) as u8;
    }
}

#[cfg(test)]
mod tests;
