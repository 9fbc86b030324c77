// A macroblock's prediction.
ghost use Rattle.std.specs.Prelude.{◌≡◌, List, ℕ, length};
ghost use Rattle.enc_tables.specs.declared.records.MbRecord.{MbRecord};

use crate::chroma::predict_chroma;
use crate::given::Pictures;
use crate::luma::predict_luma;
use enc_tables::Motion;
use spec_reconstruction::Site;

/// The samples that are predicted of a macroblock, row by row.
#[derive(Clone, Copy)]
pub struct Predicted {
    /// Luma.
    pub luma: [u8; 256],
    /// Cb.
    pub cb: [u8; 64],
    /// Cr.
    pub cr: [u8; 64],
}

impl Predicted {
    ghost use Rattle.spec_partitions.specs.InRange.{AllFit};
    ghost use Rattle.spec_partitions.specs.Small.{AllSmall};
    ghost use Rattle.spec_coded.specs.Levels.{predicted_planes};
    ghost use Rattle.inter_coder.specs.Given.{wide_of, count0, count1, sources_in, AreLent, IsIn};
    ghost use Rattle.inter_coder.specs.Made.{planes_at};

    /// What the motion of a macroblock's four 8x8 blocks predicts from the references of the lists (ITU-T H.264, clauses 8.4.2.2 and
    /// 8.4.2.3.1). Each reference index is one of its list, or −1, and no vector that is used is longer than 131 quarter samples in a
    /// direction.
    pub fn by_motion(pictures: &Pictures<'_>, site: &Site, motion: &[Motion; 4]) -> Predicted
        requires lent { AreLent pictures.now }
        requires inside { IsIn site.now pictures.now }
        requires fits { AllFit (count0 pictures.now) (count1 pictures.now) motion.now }
        requires short { AllSmall 131 motion.now }
        ensures { (mb : MbRecord) → mb.motion ≡ motion.now → planes_at result ≡ predicted_planes (wide_of pictures.now) (sources_in pictures.now) site.now mb }
    {
        let luma = predict_luma(pictures, site, motion);
        let cb = predict_chroma(pictures, 1, site, motion);
        let cr = predict_chroma(pictures, 2, site, motion);
        Predicted { luma, cb, cr }
    }
}
