// The filter over the edges of a macroblock, in place (ITU-T H.264, clause 8.7).
ghost use Rattle.std.specs.Prelude.{◌≡◌, ◌≤◌, ◌<◌, ◌+◌, ◌-◌, ◌*◌, ◌/◌, ◌%◌, ℕ, length, slice_index, cond, ◌==◌, false, true};
ghost use Rattle.spec_filter.specs.Strengths.{rule_at};
ghost use Rattle.spec_filter.specs.Edges.{edge_filtered};
ghost use Rattle.spec_filter.specs.Macroblocks.{edges_between as edges_between_of, indices as indices_of, has_luma_edge as has_luma_edge_at, has_chroma_edge as has_chroma_edge_at, luma_vertical, luma_horizontal, chroma_vertical, chroma_horizontal, luma_macroblock, chroma_macroblock};
ghost use Rattle.deblock.specs.Bounded.{IndicesBounded};

use crate::edges::filter_part;
use crate::strengths::{horizontal_strengths, vertical_strengths};
use crate::thresholds::{filter_index, rule};
use enc_tables::MbRecord;
use spec_filter::{EdgeIndices, Layout, MbEdges};

fn indices(chroma: bool, left: &MbRecord, above: &MbRecord, mb: &MbRecord) -> EdgeIndices
    requires left_qp { left.now.qp ≤ 51 }
    requires above_qp { above.now.qp ≤ 51 }
    requires qp { mb.now.qp ≤ 51 }
    ensures value { result ≡ indices_of chroma left.now above.now mb.now }
    ensures bounded { IndicesBounded result }
{
    EdgeIndices {
        left: filter_index(chroma, left, mb),
        above: filter_index(chroma, above, mb),
        inner: filter_index(chroma, mb, mb),
    }
}

// How the edges of the macroblock at column x of row y are filtered, by the macroblocks at its left and above.
#[tactic(auto, unfolding(spec_filter::specs::Macroblocks::edges_between))]
pub fn edges_between(
    pictures0: &[i32],
    pictures1: &[i32],
    x: usize,
    y: usize,
    left: &MbRecord,
    above: &MbRecord,
    mb: &MbRecord,
) -> MbEdges
    requires left_qp { left.now.qp ≤ 51 }
    requires above_qp { above.now.qp ≤ 51 }
    requires qp { mb.now.qp ≤ 51 }
    ensures value { result ≡ edges_between_of pictures0.now pictures1.now x y left.now above.now mb.now }
    ensures luma { IndicesBounded result.luma }
    ensures chroma { IndicesBounded result.chroma }
{
    MbEdges {
        left: x != 0,
        above: y != 0,
        transform8: mb.transform8,
        vertical: vertical_strengths(pictures0, pictures1, left, mb),
        horizontal: horizontal_strengths(pictures0, pictures1, above, mb),
        luma: indices(false, left, above, mb),
        chroma: indices(true, left, above, mb),
    }
}

// Whether a luma edge is filtered; `outer` tells it of the first one.
#[inline]
fn has_luma_edge(outer: bool, transform8: bool, k: usize) -> bool
    ensures { result ≡ has_luma_edge_at outer transform8 k }
{
    (outer || k != 0) && !(transform8 && k % 2 == 1)
}

#[inline]
fn has_chroma_edge(outer: bool, k: usize) -> bool
    ensures { result ≡ has_chroma_edge_at outer k }
{
    outer || k != 0
}

// Edge k of luma, whose parts have four lines each.
#[inline]
fn filter_luma_edge(
    index: u8,
    strengths: &[u8; 16],
    k: usize,
    samples: &mut [u8],
    start: usize,
    step: usize,
    across: usize,
)
    requires index { index ≤ 51 }
    requires k { k < 4 }
    requires inside { start + 15 * across + 7 * step < length samples.old }
    ensures { samples.new ≡ edge_filtered (λ g. rule_at false index (slice_index strengths.now (4 * k + g))) 4 start step across samples.old }
{
    for g in 0..4 {
        filter_part(
            rule(false, index, strengths[4 * k + g]),
            4,
            samples,
            start + 4 * g * across,
            step,
            across,
        );
    }
}

// Edge k of chroma, whose parts have two lines each; it has bS of luma edge 2k.
#[inline]
fn filter_chroma_edge(
    index: u8,
    strengths: &[u8; 16],
    k: usize,
    samples: &mut [u8],
    start: usize,
    step: usize,
    across: usize,
)
    requires index { index ≤ 51 }
    requires k { k < 2 }
    requires inside { start + 7 * across + 7 * step < length samples.old }
    ensures { samples.new ≡ edge_filtered (λ g. rule_at true index (slice_index strengths.now (8 * k + g))) 2 start step across samples.old }
{
    for g in 0..4 {
        filter_part(
            rule(true, index, strengths[8 * k + g]),
            2,
            samples,
            start + 2 * g * across,
            step,
            across,
        );
    }
}

#[inline]
#[tactic(auto, unfolding(spec_filter::specs::Macroblocks::luma_vertical))]
fn filter_luma_vertical(
    edges: &MbEdges,
    at: Layout,
    x: usize,
    y: usize,
    k: usize,
    samples: &mut [u8],
)
    requires indices { IndicesBounded edges.now.luma }
    requires outer { edges.now.left ≡ true → 0 < x }
    requires k { k < 4 }
    requires wide { 16 ≤ at.stride }
    requires room { at.origin + (16 * y + 15) * at.stride + 16 * x + 16 ≤ length samples.old }
    ensures { samples.new ≡ luma_vertical edges.now at x y k samples.old }
{
    if !has_luma_edge(edges.left, edges.transform8, k) {
        return;
    }
    let index = if k == 0 {
        edges.luma.left
    } else {
        edges.luma.inner
    };
    let start = at.origin + 16 * y * at.stride + 16 * x + 4 * k - 4;
    filter_luma_edge(index, &edges.vertical, k, samples, start, 1, at.stride);
}

#[inline]
#[tactic(auto, unfolding(spec_filter::specs::Macroblocks::luma_horizontal))]
fn filter_luma_horizontal(
    edges: &MbEdges,
    at: Layout,
    x: usize,
    y: usize,
    k: usize,
    samples: &mut [u8],
)
    requires indices { IndicesBounded edges.now.luma }
    requires outer { edges.now.above ≡ true → 0 < y }
    requires k { k < 4 }
    requires wide { 16 ≤ at.stride }
    requires room { at.origin + (16 * y + 15) * at.stride + 16 * x + 16 ≤ length samples.old }
    ensures { samples.new ≡ luma_horizontal edges.now at x y k samples.old }
{
    if !has_luma_edge(edges.above, edges.transform8, k) {
        return;
    }
    let index = if k == 0 {
        edges.luma.above
    } else {
        edges.luma.inner
    };
    let start = at.origin + (16 * y + 4 * k - 4) * at.stride + 16 * x;
    filter_luma_edge(index, &edges.horizontal, k, samples, start, at.stride, 1);
}

// The luma edges of the macroblock at column x of row y.
#[inline]
#[tactic(auto, unfolding(spec_filter::specs::Macroblocks::luma_macroblock, enc_tables::specs::Steps::steps))]
pub fn filter_luma(edges: &MbEdges, at: Layout, x: usize, y: usize, samples: &mut [u8])
    requires indices { IndicesBounded edges.now.luma }
    requires left { edges.now.left ≡ true → 0 < x }
    requires above { edges.now.above ≡ true → 0 < y }
    requires wide { 16 ≤ at.stride }
    requires room { at.origin + (16 * y + 15) * at.stride + 16 * x + 16 ≤ length samples.old }
    ensures { samples.new ≡ luma_macroblock edges.now at x y samples.old }
{
    for k in 0..4 {
        filter_luma_vertical(edges, at, x, y, k, samples);
    }
    for k in 0..4 {
        filter_luma_horizontal(edges, at, x, y, k, samples);
    }
}

#[inline]
#[tactic(auto, unfolding(spec_filter::specs::Macroblocks::chroma_vertical))]
fn filter_chroma_vertical(
    edges: &MbEdges,
    at: Layout,
    x: usize,
    y: usize,
    k: usize,
    samples: &mut [u8],
)
    requires indices { IndicesBounded edges.now.chroma }
    requires outer { edges.now.left ≡ true → 0 < x }
    requires k { k < 2 }
    requires wide { 8 ≤ at.stride }
    requires room { at.origin + (8 * y + 7) * at.stride + 8 * x + 8 ≤ length samples.old }
    ensures { samples.new ≡ chroma_vertical edges.now at x y k samples.old }
{
    if !has_chroma_edge(edges.left, k) {
        return;
    }
    let index = if k == 0 {
        edges.chroma.left
    } else {
        edges.chroma.inner
    };
    let start = at.origin + 8 * y * at.stride + 8 * x + 4 * k - 4;
    filter_chroma_edge(index, &edges.vertical, k, samples, start, 1, at.stride);
}

#[inline]
#[tactic(auto, unfolding(spec_filter::specs::Macroblocks::chroma_horizontal))]
fn filter_chroma_horizontal(
    edges: &MbEdges,
    at: Layout,
    x: usize,
    y: usize,
    k: usize,
    samples: &mut [u8],
)
    requires indices { IndicesBounded edges.now.chroma }
    requires outer { edges.now.above ≡ true → 0 < y }
    requires k { k < 2 }
    requires wide { 8 ≤ at.stride }
    requires room { at.origin + (8 * y + 7) * at.stride + 8 * x + 8 ≤ length samples.old }
    ensures { samples.new ≡ chroma_horizontal edges.now at x y k samples.old }
{
    if !has_chroma_edge(edges.above, k) {
        return;
    }
    let index = if k == 0 {
        edges.chroma.above
    } else {
        edges.chroma.inner
    };
    let start = at.origin + (8 * y + 4 * k - 4) * at.stride + 8 * x;
    filter_chroma_edge(index, &edges.horizontal, k, samples, start, at.stride, 1);
}

// The chroma edges of the macroblock at column x of row y.
#[inline]
#[tactic(auto, unfolding(spec_filter::specs::Macroblocks::chroma_macroblock, enc_tables::specs::Steps::steps))]
pub fn filter_chroma(edges: &MbEdges, at: Layout, x: usize, y: usize, samples: &mut [u8])
    requires indices { IndicesBounded edges.now.chroma }
    requires left { edges.now.left ≡ true → 0 < x }
    requires above { edges.now.above ≡ true → 0 < y }
    requires wide { 8 ≤ at.stride }
    requires room { at.origin + (8 * y + 7) * at.stride + 8 * x + 8 ≤ length samples.old }
    ensures { samples.new ≡ chroma_macroblock edges.now at x y samples.old }
{
    for k in 0..2 {
        filter_chroma_vertical(edges, at, x, y, k, samples);
    }
    for k in 0..2 {
        filter_chroma_horizontal(edges, at, x, y, k, samples);
    }
}
