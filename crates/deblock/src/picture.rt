// The filter over whole pictures (ITU-T H.264, clause 8.7).
ghost use Rattle.std.specs.Prelude.{◌≡◌, ◌≤◌, ◌<◌, ◌+◌, ◌*◌, ◌/◌, ◌%◌, ℕ, length, true};
ghost use Rattle.std.specs.List.{All};
ghost use Rattle.picture_planes.specs.Samples.{buffer, SameShape};
ghost use Rattle.picture_planes.specs.Pictures.{SameShapes, planes_of};
ghost use Rattle.spec_filter.specs.Macroblocks.{luma_macroblock, chroma_macroblock};
ghost use Rattle.spec_filter.specs.Pictures.{edges_of as edges_of_macroblock, record_at, picture_filtered};
ghost use Rattle.deblock.specs.Bounded.{IndicesBounded};
ghost use Rattle.deblock.specs.Buffers.{layout_of, FilteredTo};

use crate::macroblocks::{edges_between, filter_chroma, filter_luma};
use enc_tables::MbRecord;
use picture_planes::{Picture, Plane};
use spec_filter::{Layout, MbEdges};

// Where a plane's samples stand in its buffer.
#[inline]
fn layout(plane: &Plane) -> Layout
    ensures { result ≡ layout_of plane.now }
{
    let stride = plane.width as usize + 2 * plane.pad as usize;
    Layout {
        origin: plane.pad as usize * stride + plane.pad as usize,
        stride,
    }
}

// The edges of the luma macroblock at column x of row y.
#[inline]
fn filter_luma_of(plane: &mut Plane, edges: &MbEdges, x: usize, y: usize)
    requires indices { IndicesBounded edges.now.luma }
    requires left { edges.now.left ≡ true → 0 < x }
    requires above { edges.now.above ≡ true → 0 < y }
    requires column { 16 * x + 16 ≤ plane.old.width }
    requires row { 16 * y + 16 ≤ plane.old.height }
    ensures shape { SameShape plane.old plane.new }
    ensures samples { buffer plane.new ≡ luma_macroblock edges.now (layout_of plane.old) x y (buffer plane.old) }
{
    let at = layout(plane);
    filter_luma(edges, at, x, y, plane.buffer_mut());
}

// The edges of the chroma macroblock at column x of row y.
#[inline]
fn filter_chroma_of(plane: &mut Plane, edges: &MbEdges, x: usize, y: usize)
    requires indices { IndicesBounded edges.now.chroma }
    requires left { edges.now.left ≡ true → 0 < x }
    requires above { edges.now.above ≡ true → 0 < y }
    requires column { 8 * x + 8 ≤ plane.old.width }
    requires row { 8 * y + 8 ≤ plane.old.height }
    ensures shape { SameShape plane.old plane.new }
    ensures samples { buffer plane.new ≡ chroma_macroblock edges.now (layout_of plane.old) x y (buffer plane.old) }
{
    let at = layout(plane);
    filter_chroma(edges, at, x, y, plane.buffer_mut());
}

// How the edges of macroblock m are filtered.
#[inline]
#[tactic(auto, unfolding(spec_filter::specs::Pictures::edges_of))]
fn edges_of(
    pictures0: &[i32],
    pictures1: &[i32],
    records: &[MbRecord],
    width: usize,
    m: usize,
) -> MbEdges
    requires width { 0 < width }
    requires m { m < length records.now }
    requires qps { All (λ r. r.qp ≤ 51) records.now }
    ensures value { result ≡ edges_of_macroblock pictures0.now pictures1.now records.now width m }
    ensures luma { IndicesBounded result.luma }
    ensures chroma { IndicesBounded result.chroma }
{
    let left = &records[m.saturating_sub(1)];
    let above = &records[m.saturating_sub(width)];
    edges_between(
        pictures0,
        pictures1,
        m % width,
        m / width,
        left,
        above,
        &records[m],
    )
}

/// Filters the whole picture, across slices: `records` has one record for each macroblock, in the order of their
/// addresses; `pictures0` and `pictures1` have the number of the picture that each entry of list 0 and of list 1
/// means, so that two entries are the same picture exactly where the numbers are equal.
pub fn deblock_picture(
    picture: &mut Picture,
    records: &[MbRecord],
    pictures0: &[i32],
    pictures1: &[i32],
)
    requires count { length records.now ≡ picture.old.y.width / 16 * (picture.old.y.height / 16) }
    requires qps { All (λ r. r.qp ≤ 51) records.now }
    ensures shapes { SameShapes picture.old picture.new }
    ensures value { planes_of picture.new ≡ picture_filtered pictures0.now pictures1.now records.now picture.old.y.width (planes_of picture.old) }
{
    let width = picture.y.width as usize / 16;
    for m in 0..records.len() {
        let edges = edges_of(pictures0, pictures1, records, width, m);
        let x = m % width;
        let y = m / width;
        filter_luma_of(&mut picture.y, &edges, x, y);
        filter_chroma_of(&mut picture.cb, &edges, x, y);
        filter_chroma_of(&mut picture.cr, &edges, x, y);
    }
}
