// The filter of one line of samples across an edge (ITU-T H.264, clause 8.7.2).
ghost use Rattle.std.specs.Prelude.{◌≡◌, ℕ, Bool, true, false, not, nat_lt, ◌&&◌, cond, ◌+◌, ◌-◌, ◌*◌, ◌/◌, ◌<◌, ◌≤◌, ℤ, pos, ◌+ℤ◌, ◌-ℤ◌, ◌*ℤ◌, ◌≤ℤ◌};
ghost use Rattle.std.specs.Int.{abs_diff};
ghost use Rattle.spec_filter.specs.Lines.{limited, one_where, is_filtered as is_filtered_by, step_at, second as second_of, weak, strong, is_smooth};

use spec_filter::{EdgeRule, SampleLine};
use whole_numbers::Whole;

#[inline]
fn is_near(a: u8, b: u8, bound: u8) -> bool
    ensures { result ≡ nat_lt (abs_diff a b) bound }
{
    a.abs_diff(b) < bound
}

// Whether the line is filtered at all, where the strength isn't 0.
#[inline]
#[tactic(auto, unfolding(spec_filter::specs::Lines::is_filtered))]
pub fn is_filtered(rule: EdgeRule, line: SampleLine) -> bool
    ensures { result ≡ is_filtered_by rule line }
{
    is_near(line.p0, line.q0, rule.alpha)
        && is_near(line.p1, line.p0, rule.beta)
        && is_near(line.q1, line.q0, rule.beta)
}

// How far the two samples at the edge move towards each other.
#[inline]
#[tactic(auto, using(crate::proofs::Weak::raw_is), unfolding(spec_filter::specs::Lines::step_at))]
fn edge_step(t: u16, p1: u8, p0: u8, q0: u8, q1: u8) -> Whole
    requires { t ≤ 300 }
    ensures value { result ≡ step_at t p1 p0 q0 q1 }
    ensures low { (pos 0 -ℤ pos 300) ≤ℤ result }
    ensures high { result ≤ℤ pos 300 }
{
    Whole::gap(4 * q0 as u32 + p1 as u32 + 4, 4 * p0 as u32 + q1 as u32)
        .eighth()
        .limited(t)
}

#[inline]
#[tactic(auto, unfolding(spec_filter::specs::Lines::second))]
fn second(t: u8, p2: u8, p1: u8, p0: u8, q0: u8) -> u8
    ensures { result ≡ second_of t p2 p1 p0 q0 }
{
    let middle = (p0 as u32 + q0 as u32 + 1) / 2;
    Whole::gap(p2 as u32 + middle, 2 * p1 as u32)
        .half()
        .limited(t as u16)
        .above(p1)
}

#[inline]
fn threshold(chroma: bool, tc0: u8, near_p: bool, near_q: bool) -> u16
    ensures value { result ≡ cond chroma (tc0 + 1) (tc0 + one_where near_p + one_where near_q) }
    ensures most { result ≤ 257 }
{
    if chroma {
        tc0 as u16 + 1
    } else {
        tc0 as u16 + near_p as u16 + near_q as u16
    }
}

#[inline]
fn second_where(there: bool, t: u8, p2: u8, p1: u8, p0: u8, q0: u8) -> u8
    ensures { result ≡ cond there (second_of t p2 p1 p0 q0) p1 }
{
    if there { second(t, p2, p1, p0, q0) } else { p1 }
}

// The line at strengths 1 to 3.
#[inline]
#[tactic(auto, unfolding(spec_filter::specs::Lines::weak))]
pub fn weakly(rule: EdgeRule, line: SampleLine) -> SampleLine
    ensures { result ≡ weak rule line }
{
    let near_p = is_near(line.p2, line.p0, rule.beta);
    let near_q = is_near(line.q2, line.q0, rule.beta);
    let t = threshold(rule.chroma, rule.tc0, near_p, near_q);
    let step = edge_step(t, line.p1, line.p0, line.q0, line.q1);
    let luma = !rule.chroma;
    SampleLine {
        p1: second_where(luma && near_p, rule.tc0, line.p2, line.p1, line.p0, line.q0),
        p0: step.above(line.p0),
        q0: step.below(line.q0),
        q1: second_where(luma && near_q, rule.tc0, line.q2, line.q1, line.q0, line.p0),
        ..line
    }
}

#[inline]
fn is_smooth_side(rule: EdgeRule, line: SampleLine, a2: u8, a0: u8) -> bool
    ensures { result ≡ is_smooth rule line a2 a0 }
{
    !rule.chroma
        && is_near(a2, a0, rule.beta)
        && (line.p0.abs_diff(line.q0) as u32) < rule.alpha as u32 / 4 + 2
}

// The three samples of a side next to the edge.
#[derive(Clone, Copy)]
struct SideSamples {
    a2: u8,
    a1: u8,
    a0: u8,
}

// A side at strength 4; b0 and b1 are the other side's samples next to the edge.
#[inline]
fn strong_side(smooth: bool, a3: u8, a2: u8, a1: u8, a0: u8, b0: u8, b1: u8) -> SideSamples
    ensures a2 { result.a2 ≡ cond smooth ((2 * a3 + 3 * a2 + a1 + a0 + b0 + 4) / 8) a2 }
    ensures a1 { result.a1 ≡ cond smooth ((a2 + a1 + a0 + b0 + 2) / 4) a1 }
    ensures a0 { result.a0 ≡ cond smooth ((a2 + 2 * a1 + 2 * a0 + 2 * b0 + b1 + 4) / 8) ((2 * a1 + a0 + b1 + 2) / 4) }
{
    let (w3, w2, w1, w0) = (a3 as u32, a2 as u32, a1 as u32, a0 as u32);
    let (v0, v1) = (b0 as u32, b1 as u32);
    if smooth {
        SideSamples {
            a2: ((2 * w3 + 3 * w2 + w1 + w0 + v0 + 4) >> 3) as u8,
            a1: ((w2 + w1 + w0 + v0 + 2) >> 2) as u8,
            a0: ((w2 + 2 * w1 + 2 * w0 + 2 * v0 + v1 + 4) >> 3) as u8,
        }
    } else {
        SideSamples {
            a2,
            a1,
            a0: ((2 * w1 + w0 + v1 + 2) >> 2) as u8,
        }
    }
}

// The line at strength 4.
#[inline]
#[tactic(auto, unfolding(spec_filter::specs::Lines::strong))]
pub fn strongly(rule: EdgeRule, line: SampleLine) -> SampleLine
    ensures { result ≡ strong rule line }
{
    let smooth_p = is_smooth_side(rule, line, line.p2, line.p0);
    let smooth_q = is_smooth_side(rule, line, line.q2, line.q0);
    let p = strong_side(
        smooth_p, line.p3, line.p2, line.p1, line.p0, line.q0, line.q1,
    );
    let q = strong_side(
        smooth_q, line.q3, line.q2, line.q1, line.q0, line.p0, line.p1,
    );
    SampleLine {
        p3: line.p3,
        p2: p.a2,
        p1: p.a1,
        p0: p.a0,
        q0: q.a0,
        q1: q.a1,
        q2: q.a2,
        q3: line.q3,
    }
}
