// The levels of inter macroblocks.
ghost use Rattle.std.specs.Prelude.{◌≡◌, ◌≤◌, ◌<◌, ◌+◌, ◌*◌, ◌/◌, ◌==◌, ◌&&◌, ℕ, cond, not, if◌then◌else◌};
ghost use Rattle.picture_planes.specs.Samples.{samples_of};
ghost use Rattle.spec_residual.specs.Blocks.{is_nonzero, item, nonzero_levels};
ghost use Rattle.spec_residual.specs.declared.BlockKind.TheVariants.{Luma4};
ghost use Rattle.spec_reconstruction.specs.InOrder.{levels_of_block};
ghost use Rattle.spec_coded.specs.Levels.{whole_levels4, whole_levels8, takes_8x8, levelled};
ghost use Rattle.residual_coder.specs.Made.{IsQuantised, IsQuantised8};
ghost use Rattle.inter_coder.specs.Given.{wide_of, source_in, IsIn};
ghost use Rattle.inter_coder.specs.Made.{planes_at, LumaCoded, IsCoded};

use crate::given::Pictures;
use crate::prediction::Predicted;
use enc_tables::MbRecord;
use picture_planes::Plane;
use residual_coder::{
    block_column, block_row, block4_at, block8_at, both_ac, both_dc, chroma_levels, chroma_pattern,
    levels4, levels8, luma_pattern, part8, part16,
};
use spec_reconstruction::Site;

// The levels of the sixteen 4x4 luma blocks over a prediction, those of block b at 16b.
fn whole_levels4(source: &Plane, site: &Site, prediction: &[u8; 256]) -> [i16; 256]
    requires in_range { site.now.qp ≤ 51 }
    requires inside { (site.now.x + 16 ≤ source.now.width) × (site.now.y + 16 ≤ source.now.height) }
    ensures value { result ≡ whole_levels4 source.now.width site.now (samples_of source.now) prediction.now }
    ensures quantised { (b : ℕ) → b < 16 → IsQuantised Luma4 site.now.qp (levels_of_block 16 b result) }
{
    let mut levels = [0i16; 256];
    for b in 0..16u32 {
        let original = block4_at(
            source,
            site.x + 4 * block_column(b),
            site.y + 4 * block_row(b),
        );
        let part = part16(prediction, b);
        let block = levels4(false, site.qp, &original, &part);
        let start = b as usize * 16;
        let end = start + 16;
        levels[start..end].copy_from_slice(&block);
    }
    levels
}

// The levels of the four 8x8 luma blocks, those of block k at 64k.
fn whole_levels8(source: &Plane, site: &Site, prediction: &[u8; 256]) -> [i16; 256]
    requires in_range { site.now.qp ≤ 51 }
    requires inside { (site.now.x + 16 ≤ source.now.width) × (site.now.y + 16 ≤ source.now.height) }
    ensures value { result ≡ whole_levels8 source.now.width site.now (samples_of source.now) prediction.now }
    ensures quantised { (k : ℕ) → k < 4 → IsQuantised8 site.now.qp (levels_of_block 64 k result) }
{
    let mut levels = [0i16; 256];
    for k in 0..4u32 {
        let original = block8_at(source, site.x + 8 * (k % 2), site.y + 8 * (k / 2));
        let part = part8(prediction, k);
        let block = levels8(false, site.qp, &original, &part);
        let start = k as usize * 64;
        let end = start + 64;
        levels[start..end].copy_from_slice(&block);
    }
    levels
}

// 1 where a level isn't 0, and else 0.
#[inline(always)]
fn one_at(levels: &[i16; 256], k: usize) -> u32
    requires { k < 256 }
    ensures { result ≡ cond (is_nonzero (item levels.now k)) 1 0 }
{
    if levels[k] == 0 { 0 } else { 1 }
}

// How many levels aren't 0.
fn nonzero(levels: &[i16; 256]) -> u32
    ensures { result ≡ nonzero_levels levels.now }
{
    let mut count = 0;
    for k in 0..256usize {
        count += one_at(levels, k);
    }
    count
}

// Luma levels, and whether they are of the 8x8 transform and some isn't 0.
#[derive(Clone, Copy)]
struct Luma {
    levels: [i16; 256],
    transform8: bool,
}

// Those that are taken: of the 8x8 transform where `t8x8` allows it and no more of them aren't 0 than of the 4x4 transform.
fn luma_over(source: &Plane, site: &Site, t8x8: bool, prediction: &[u8; 256]) -> Luma
    requires in_range { site.now.qp ≤ 51 }
    requires inside { (site.now.x + 16 ≤ source.now.width) × (site.now.y + 16 ≤ source.now.height) }
    ensures levels { result.levels ≡ (if takes_8x8 t8x8 (whole_levels4 source.now.width site.now (samples_of source.now) prediction.now) (whole_levels8 source.now.width site.now (samples_of source.now) prediction.now) then whole_levels8 source.now.width site.now (samples_of source.now) prediction.now else whole_levels4 source.now.width site.now (samples_of source.now) prediction.now) }
    ensures transform8 { result.transform8 ≡ (takes_8x8 t8x8 (whole_levels4 source.now.width site.now (samples_of source.now) prediction.now) (whole_levels8 source.now.width site.now (samples_of source.now) prediction.now) && not (nonzero_levels (whole_levels8 source.now.width site.now (samples_of source.now) prediction.now) == 0)) }
    ensures quantised { LumaCoded site.now.qp result.transform8 result.levels }
{
    let fours = whole_levels4(source, site, prediction);
    let small = Luma {
        levels: fours,
        transform8: false,
    };
    if !t8x8 {
        return small;
    }
    let eights = whole_levels8(source, site, prediction);
    let count = nonzero(&eights);
    if count > nonzero(&fours) {
        return small;
    }
    Luma {
        levels: eights,
        transform8: count != 0,
    }
}

/// Gives a macroblock whose motion is known the levels of the source over a prediction. The quantiser rounds as for inter macroblocks. The
/// levels of the 8x8 transform are taken where `t8x8` allows it and no more of them aren't 0 than of the 4x4 transform; without any luma
/// level there is no transform flag.
pub fn give_levels(
    pictures: &Pictures<'_>,
    site: &Site,
    t8x8: bool,
    prediction: &Predicted,
    mb: &mut MbRecord,
)
    requires in_range { site.now.qp ≤ 51 }
    requires inside { IsIn site.now pictures.now }
    ensures levels { mb.new ≡ levelled (wide_of pictures.now) site.now t8x8 (source_in pictures.now) (planes_at prediction.now) mb.old }
    ensures quantised { IsCoded site.now.qp mb.new }
{
    let source = pictures.source;
    let luma = luma_over(&source.y, site, t8x8, &prediction.luma);
    let cb = chroma_levels(&source.cb, site, false, &prediction.cb);
    let cr = chroma_levels(&source.cr, site, false, &prediction.cr);
    let dc = both_dc(&cb.dc, &cr.dc);
    let ac = both_ac(&cb.ac, &cr.ac);
    mb.transform8 = luma.transform8;
    mb.luma_cbp = luma_pattern(&luma.levels);
    mb.chroma_cbp = chroma_pattern(&dc, &ac);
    mb.luma = luma.levels;
    mb.chroma_dc = dc;
    mb.chroma_ac = ac;
}
