// Intra_16x16 macroblocks without levels, by the mean of the samples around: what the coarsest coding has in place of coded ones.
ghost use Rattle.std.specs.Prelude.{◌≡◌, ◌≤◌, ◌<◌, ◌*◌, ◌/◌, ◌∷◌, pos, replicate};
ghost use Rattle.enc_tables.specs.declared.records.MbKind.{MbKind};
ghost use Rattle.enc_tables.specs.declared.records.MbRecord.{MbRecord};
ghost use Rattle.enc_tables.specs.Records.{blank_record};
ghost use Rattle.intra_coder.specs.Reach.{Reachable, Stands};
ghost use Rattle.residual_coder.specs.Stripes.{planes_in, samples_from};
ghost use Rattle.picture_planes.specs.Pictures.{SameShapes};
ghost use Rattle.picture_planes.specs.Samples.{SameShape};
ghost use Rattle.spec_reconstruction.specs.Chroma.{chroma_built};
ghost use Rattle.spec_reconstruction.specs.Luma.{luma16_built};
ghost use Rattle.spec_reconstruction.specs.Records.{intra_built};

use crate::luma16::{build_luma16, unscanned};
use crate::macroblock::first_mode;
use crate::near::{near_chroma, near16};
use enc_tables::{MbKind, MbRecord};
use intra_pred::{pred_chroma, pred16};
use picture_planes::{Plane, Stripe};
use residual_coder::{Chroma, build_chroma};
use spec_reconstruction::Site;
use transform_quant::rescale_luma_dc;

fn build_luma(plane: &mut Plane, top: u32, site: &Site)
    requires in_range { site.now.qp ≤ 51 }
    requires top { top < 2304 }
    requires stands { Stands site.now top plane.old }
    ensures shape { SameShape plane.old plane.new }
    ensures samples { samples_from top plane.new ≡ luma16_built plane.old.width site.now 2 (replicate 16 (pos 0)) (replicate 256 (pos 0)) (samples_from top plane.old) }
{
    let near = near16(plane, top, &site.near, site.x, site.y);
    let prediction = pred16(2, &near);
    let none = [0i16; 16];
    let rows = unscanned(&none, site.qp);
    let dcs = rescale_luma_dc(site.qp, &rows);
    let levels = [0i16; 256];
    build_luma16(plane, top, site, &prediction, &dcs, &levels);
}

fn build_component(plane: &mut Plane, top: u32, site: &Site)
    requires in_range { site.now.qp ≤ 51 }
    requires top { top < 2304 }
    requires stands { Reachable 8 top plane.old site.now.near (site.now.x / 2) (site.now.y / 2) }
    ensures shape { SameShape plane.old plane.new }
    ensures samples { samples_from top plane.new ≡ chroma_built plane.old.width site.now 0 (replicate 4 (pos 0)) (replicate 60 (pos 0)) (samples_from top plane.old) }
{
    let near = near_chroma(plane, top, &site.near, site.x / 2, site.y / 2);
    let prediction = pred_chroma(0, &near);
    let none = Chroma {
        dc: [0; 4],
        ac: [0; 60],
    };
    build_chroma(plane, top, site, &prediction, &none);
}

/// Builds a macroblock in the stripe without levels: Intra_16x16, luma and chroma by the mean of the samples around (clauses 8.3.3.3 and
/// 8.3.4.1). The site is one of the whole picture.
pub fn build_flat(stripe: &mut Stripe<'_>, site: &Site) -> MbRecord
    requires in_range { site.now.qp ≤ 51 }
    requires stands { Stands site.now (16 * stripe.old.first) stripe.old.picture.now.y }
    ensures same_reference { stripe.new.picture.ghost_name ≡ stripe.old.picture.ghost_name }
    ensures first { stripe.new.first ≡ stripe.old.first }
    ensures shapes { SameShapes stripe.old.picture.now stripe.new.picture.now }
    ensures record { (let flat : MbRecord = record (blank_record MbKind.Intra16 site.now.qp) { modes = 2 ∷ replicate 15 0 } in result ≡ flat) }
    ensures planes { planes_in stripe.new ≡ intra_built stripe.old.picture.now.y.width site.now result (planes_in stripe.old) }
{
    let picture = &mut *stripe.picture;
    build_luma(&mut picture.y, 16 * stripe.first, site);
    build_component(&mut picture.cb, 8 * stripe.first, site);
    build_component(&mut picture.cr, 8 * stripe.first, site);
    let mut mb = MbRecord::blank(MbKind::Intra16, site.qp);
    let modes = first_mode(2);
    mb.modes = modes;
    mb
}
