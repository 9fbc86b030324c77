// The filter over edges in a buffer of samples, in place.
ghost use Rattle.std.specs.Prelude.{◌≡◌, ◌+◌, ◌-◌, ◌*◌, ◌<◌, ◌≤◌, length};
ghost use Rattle.spec_filter.specs.Edges.{line_at, with_line, line_filtered, part_filtered};

use crate::lines::{is_filtered, strongly, weakly};
use spec_filter::{EdgeRule, SampleLine};

#[inline]
#[tactic(auto, unfolding(spec_filter::specs::Edges::line_at))]
fn line_of(samples: &[u8], start: usize, step: usize) -> SampleLine
    requires { start + 7 * step < length samples.now }
    ensures { result ≡ line_at samples.now start step }
{
    SampleLine {
        p3: samples[start],
        p2: samples[start + step],
        p1: samples[start + 2 * step],
        p0: samples[start + 3 * step],
        q0: samples[start + 4 * step],
        q1: samples[start + 5 * step],
        q2: samples[start + 6 * step],
        q3: samples[start + 7 * step],
    }
}

#[inline]
#[tactic(auto, unfolding(spec_filter::specs::Edges::with_line))]
fn set_line(samples: &mut [u8], start: usize, step: usize, line: SampleLine)
    requires { start + 7 * step < length samples.old }
    ensures { samples.new ≡ with_line samples.old start step line }
{
    samples[start + step] = line.p2;
    samples[start + 2 * step] = line.p1;
    samples[start + 3 * step] = line.p0;
    samples[start + 4 * step] = line.q0;
    samples[start + 5 * step] = line.q1;
    samples[start + 6 * step] = line.q2;
}

// One line; the strength isn't 0.
#[inline]
fn filter_line(rule: EdgeRule, samples: &mut [u8], start: usize, step: usize)
    requires strength { 0 < rule.strength }
    requires inside { start + 7 * step < length samples.old }
    ensures { samples.new ≡ line_filtered rule start step samples.old }
{
    let line = line_of(samples, start, step);
    if !is_filtered(rule, line) {
        return;
    }
    if rule.strength < 4 {
        set_line(samples, start, step, weakly(rule, line));
    } else {
        set_line(samples, start, step, strongly(rule, line));
    }
}

// Lines side by side with one rule.
#[inline]
#[tactic(auto, unfolding(spec_filter::specs::Edges::part_filtered, enc_tables::specs::Steps::steps))]
pub fn filter_part(
    rule: EdgeRule,
    lines: usize,
    samples: &mut [u8],
    start: usize,
    step: usize,
    across: usize,
)
    requires lines { 0 < lines }
    requires inside { start + (lines - 1) * across + 7 * step < length samples.old }
    ensures { samples.new ≡ part_filtered rule lines start step across samples.old }
{
    if rule.strength == 0 {
        return;
    }
    for j in 0..lines {
        filter_line(rule, samples, start + j * across, step);
    }
}
