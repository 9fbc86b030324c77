// The samples of a chroma component of intra macroblocks.
ghost use Rattle.std.specs.Prelude.{◌≡◌, ◌≤◌, ◌<◌, ◌/◌, ◌++◌, take, drop};
ghost use Rattle.intra_coder.specs.Reach.{Reachable};
ghost use Rattle.residual_coder.specs.Inside.{IsSource};
ghost use Rattle.residual_coder.specs.Stripes.{samples_from};
ghost use Rattle.picture_planes.specs.Samples.{SameShape, samples_of};
ghost use Rattle.spec_reconstruction.specs.Chroma.{chroma_ac, chroma_built, chroma_dc};

use crate::near::near_chroma;
use intra_pred::pred_chroma;
use picture_planes::{Picture, Plane};
use residual_coder::{Chroma, both_ac, both_dc};
use spec_reconstruction::Site;

// Codes a chroma component of an intra macroblock and builds its samples in the component's plane, which has the picture's rows from
// `top` on.
fn code_component(plane: &mut Plane, top: u32, source: &Plane, site: &Site, mode: u8) -> Chroma
    requires in_range { site.now.qp ≤ 51 }
    requires stands { Reachable 8 top plane.old site.now.near (site.now.x / 2) (site.now.y / 2) }
    requires source { IsSource 8 (site.now.y / 2) plane.old source.now }
    requires mode { mode < 4 }
    ensures shape { SameShape plane.old plane.new }
    ensures dc { result.dc ≡ chroma_dc plane.old.width site.now mode (samples_of source.now) (samples_from top plane.old) }
    ensures ac { result.ac ≡ chroma_ac plane.old.width site.now mode (samples_of source.now) (samples_from top plane.old) }
    ensures samples { samples_from top plane.new ≡ chroma_built plane.old.width site.now mode result.dc result.ac (samples_from top plane.old) }
{
    let near = near_chroma(plane, top, &site.near, site.x / 2, site.y / 2);
    let prediction = pred_chroma(mode, &near);
    residual_coder::code_chroma(plane, top, source, site, true, &prediction)
}

/// The levels of both chroma components.
#[derive(Clone, Copy)]
pub struct Components {
    /// The DC levels: those of Cb at 0, those of Cr at 4.
    pub dc: [i16; 8],
    /// The AC levels: those of block b of Cb in zigzag order at 15b, of Cr at 60 + 15b.
    pub ac: [i16; 120],
}

/// Codes both chroma components of an intra macroblock and builds their samples in their planes, which have the picture's rows from `top`
/// on.
pub fn code_components(
    cb: &mut Plane,
    cr: &mut Plane,
    top: u32,
    source: &Picture,
    site: &Site,
    mode: u8,
) -> Components
    requires in_range { site.now.qp ≤ 51 }
    requires stands_cb { Reachable 8 top cb.old site.now.near (site.now.x / 2) (site.now.y / 2) }
    requires stands_cr { Reachable 8 top cr.old site.now.near (site.now.x / 2) (site.now.y / 2) }
    requires source_cb { IsSource 8 (site.now.y / 2) cb.old source.now.cb }
    requires source_cr { IsSource 8 (site.now.y / 2) cr.old source.now.cr }
    requires mode { mode < 4 }
    ensures shape_cb { SameShape cb.old cb.new }
    ensures shape_cr { SameShape cr.old cr.new }
    ensures dc { result.dc ≡ chroma_dc cb.old.width site.now mode (samples_of source.now.cb) (samples_from top cb.old) ++ chroma_dc cr.old.width site.now mode (samples_of source.now.cr) (samples_from top cr.old) }
    ensures ac { result.ac ≡ chroma_ac cb.old.width site.now mode (samples_of source.now.cb) (samples_from top cb.old) ++ chroma_ac cr.old.width site.now mode (samples_of source.now.cr) (samples_from top cr.old) }
    ensures cb { samples_from top cb.new ≡ chroma_built cb.old.width site.now mode (take 4 result.dc) (take 60 result.ac) (samples_from top cb.old) }
    ensures cr { samples_from top cr.new ≡ chroma_built cr.old.width site.now mode (drop 4 result.dc) (drop 60 result.ac) (samples_from top cr.old) }
{
    let of_cb = code_component(cb, top, &source.cb, site, mode);
    let of_cr = code_component(cr, top, &source.cr, site, mode);
    Components {
        dc: both_dc(&of_cb.dc, &of_cr.dc),
        ac: both_ac(&of_cb.ac, &of_cr.ac),
    }
}
