// Macroblocks whose motion is known, with their levels.
ghost use Rattle.std.specs.Prelude.{◌≡◌, ◌≤◌};
ghost use Rattle.enc_tables.specs.declared.records.MbKind.{MbKind};
ghost use Rattle.enc_tables.specs.declared.records.MbRecord.{MbRecord};
ghost use Rattle.picture_planes.specs.Pictures.{SameShapes};
ghost use Rattle.spec_basics.specs.Sums.{sad};
ghost use Rattle.spec_reconstruction.specs.Parts.{block_at};
ghost use Rattle.spec_partitions.specs.InRange.{AllFit};
ghost use Rattle.spec_partitions.specs.Small.{AllSmall};
ghost use Rattle.spec_coded.specs.Planned.{moving};
ghost use Rattle.spec_coded.specs.Levels.{is_blank, predicted_planes};
ghost use Rattle.residual_coder.specs.Stripes.{planes_in};
ghost use Rattle.inter_coder.specs.Given.{wide_of, count0, count1, sources_in, source_in, AreLent, IsIn};
ghost use Rattle.inter_coder.specs.Beside.{Stands};
ghost use Rattle.inter_coder.specs.Made.{planes_at, IsCoded, made_by, built_by};

use crate::given::Pictures;
use crate::levels::give_levels;
use crate::prediction::Predicted;
use crate::samples::build_over;
use enc_tables::{MbKind, MbRecord, Motion};
use lane_kernels::sad_rows;
use picture_planes::Stripe;
use plane_blocks::read_block;
use spec_reconstruction::Site;

/// A macroblock that is skipped or direct, before it has levels.
pub fn moving(kind: MbKind, qp: u8, motion: &[Motion; 4]) -> MbRecord
    ensures { result ≡ moving kind qp motion.now }
{
    let mut mb = MbRecord::blank(kind, qp);
    let motion = *motion;
    mb.motion = motion;
    mb
}

/// Whether a macroblock has no level.
pub fn is_blank(mb: &MbRecord) -> bool
    ensures { result ≡ is_blank mb.now }
{
    mb.luma_cbp == 0 && mb.chroma_cbp == 0
}

/// The sum of absolute differences of the source's luma and a prediction of it.
pub fn difference_from(pictures: &Pictures<'_>, site: &Site, prediction: &[u8; 256]) -> u32
    requires { IsIn site.now pictures.now }
    ensures { result ≡ sad (block_at (wide_of pictures.now) site.now.x site.now.y 16 (source_in pictures.now).luma) prediction.now }
{
    let mut block = [0u8; 256];
    read_block(&pictures.source.y, site.x, site.y, 16, &mut block);
    sad_rows(&block, prediction)
}

/// A macroblock with its levels, and what its motion predicts.
#[derive(Clone, Copy)]
pub struct Coded {
    /// Its record.
    pub mb: MbRecord,
    /// What its motion predicts.
    pub prediction: Predicted,
}

/// A macroblock whose motion is known, with the levels of the source over what the motion predicts.
pub fn coded_by(pictures: &Pictures<'_>, t8x8: bool, site: &Site, mb: &MbRecord) -> Coded
    requires in_range { site.now.qp ≤ 51 }
    requires lent { AreLent pictures.now }
    requires inside { IsIn site.now pictures.now }
    requires fits { AllFit (count0 pictures.now) (count1 pictures.now) mb.now.motion }
    requires short { AllSmall 131 mb.now.motion }
    ensures record { result.mb ≡ made_by pictures.now t8x8 site.now mb.now }
    ensures prediction { planes_at result.prediction ≡ predicted_planes (wide_of pictures.now) (sources_in pictures.now) site.now result.mb }
    ensures quantised { IsCoded site.now.qp result.mb }
{
    let prediction = Predicted::by_motion(pictures, site, &mb.motion);
    let mut mb = *mb;
    give_levels(pictures, site, t8x8, &prediction, &mut mb);
    Coded { mb, prediction }
}

/// The same macroblock as B_Skip.
pub fn as_b_skip(mb: &MbRecord) -> MbRecord
    ensures { (let skipped : MbRecord = record mb.now { kind = MbKind.BSkip } in result ≡ skipped) }
{
    let mut skipped = *mb;
    skipped.kind = MbKind::BSkip;
    skipped
}

/// Builds a macroblock without levels in a stripe: the samples that its motion predicts.
pub fn build_blank(
    stripe: &mut Stripe<'_>,
    pictures: &Pictures<'_>,
    site: &Site,
    kind: MbKind,
    motion: &[Motion; 4],
) -> MbRecord
    requires in_range { site.now.qp ≤ 51 }
    requires stands { Stands site.now pictures.now stripe.old }
    requires fits { AllFit (count0 pictures.now) (count1 pictures.now) motion.now }
    requires short { AllSmall 131 motion.now }
    ensures same_reference { stripe.new.picture.ghost_name ≡ stripe.old.picture.ghost_name }
    ensures first { stripe.new.first ≡ stripe.old.first }
    ensures shapes { SameShapes stripe.old.picture.now stripe.new.picture.now }
    ensures record { result ≡ moving kind site.now.qp motion.now }
    ensures planes { planes_in stripe.new ≡ built_by pictures.now site.now result (planes_in stripe.old) }
{
    let mb = moving(kind, site.qp, motion);
    let prediction = Predicted::by_motion(pictures, site, motion);
    build_over(stripe, site, &prediction, &mb);
    mb
}
