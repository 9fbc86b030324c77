// Luma samples that are predicted by motion.
ghost use Rattle.std.specs.Prelude.{◌≡◌, ◌≤◌, ◌<◌, ◌+◌, ◌*◌, ◌/◌, ◌%◌, ◌⊎◌, ℕ, true, negsuc, Some, slice_index_or};
ghost use Rattle.enc_tables.specs.declared.records.MbRecord.{MbRecord};
ghost use Rattle.enc_tables.specs.Records.{no_motion, is_used};
ghost use Rattle.spec_inter.specs.Blocks.{RowsOf};
ghost use Rattle.spec_inter.specs.Taps.{mean};
ghost use Rattle.spec_partitions.specs.InRange.{MotionFits, AllFit};
ghost use Rattle.spec_partitions.specs.Small.{BlockSmall, AllSmall};
ghost use Rattle.spec_reconstruction.specs.Inter.{predicted_by, luma_predicted};
ghost use Rattle.inter_coder.specs.Given.{wide_of, tall_of, count0, count1, sources_in, luma_sample, predicted_in, AreLent, IsIn};

use crate::blocks::{clear, is_one, motion_at, put};
use crate::given::Pictures;
use crate::references::{places_of, reference_at, uses, vector_at};
use bi_pred::average;
use enc_tables::Motion;
use spec_reconstruction::Site;
use subpel_filter::luma_from;

// A square block of luma samples, as one reference predicts it by the vector of a list that the motion uses.
fn luma_of(
    pictures: &Pictures<'_>,
    list: u8,
    motion: &Motion,
    x: u32,
    y: u32,
    side: u32,
    out: &mut [u8; 256],
)
    requires lent { AreLent pictures.now }
    requires fits { MotionFits (count0 pictures.now) (count1 pictures.now) motion.now }
    requires short { BlockSmall 131 (Some motion.now) }
    requires side { (side ≡ 8) ⊎ (side ≡ 16) }
    requires inside { (x + side ≤ wide_of pictures.now) × (y + side ≤ tall_of pictures.now) }
    requires list { list < 2 }
    requires used { is_used (slice_index_or motion.now.refs list (negsuc 0)) ≡ true }
    ensures { RowsOf (λ i j. predicted_in (luma_sample (wide_of pictures.now) (x + i) (y + j)) (sources_in pictures.now) list motion.now) side side out.new }
{
    let lists = pictures.lists;
    let reference = reference_at(lists.held, places_of(lists, list), list, motion);
    let vector = vector_at(list, motion);
    luma_from(
        &reference.picture.y,
        &reference.halves,
        x,
        y,
        vector,
        side,
        side,
        out,
    );
}

// The same from both lists: the mean of what each predicts.
fn luma_of_both(
    pictures: &Pictures<'_>,
    motion: &Motion,
    x: u32,
    y: u32,
    side: u32,
    out: &mut [u8; 256],
)
    requires lent { AreLent pictures.now }
    requires fits { MotionFits (count0 pictures.now) (count1 pictures.now) motion.now }
    requires short { BlockSmall 131 (Some motion.now) }
    requires side { (side ≡ 8) ⊎ (side ≡ 16) }
    requires inside { (x + side ≤ wide_of pictures.now) × (y + side ≤ tall_of pictures.now) }
    requires used0 { is_used (slice_index_or motion.now.refs 0 (negsuc 0)) ≡ true }
    requires used1 { is_used (slice_index_or motion.now.refs 1 (negsuc 0)) ≡ true }
    ensures { RowsOf (λ i j. mean (predicted_in (luma_sample (wide_of pictures.now) (x + i) (y + j)) (sources_in pictures.now) 0 motion.now) (predicted_in (luma_sample (wide_of pictures.now) (x + i) (y + j)) (sources_in pictures.now) 1 motion.now)) side side out.new }
{
    let mut one = [0u8; 256];
    let mut other = [0u8; 256];
    luma_of(pictures, 0, motion, x, y, side, &mut one);
    luma_of(pictures, 1, motion, x, y, side, &mut other);
    let count = (side * side) as usize;
    average(&one[..count], &other[..count], &mut out[..count]);
}

// A square block of luma samples that motion predicts; 0 where it uses neither list.
fn luma_part(
    pictures: &Pictures<'_>,
    motion: &Motion,
    x: u32,
    y: u32,
    side: u32,
    out: &mut [u8; 256],
)
    requires lent { AreLent pictures.now }
    requires fits { MotionFits (count0 pictures.now) (count1 pictures.now) motion.now }
    requires short { BlockSmall 131 (Some motion.now) }
    requires side { (side ≡ 8) ⊎ (side ≡ 16) }
    requires inside { (x + side ≤ wide_of pictures.now) × (y + side ≤ tall_of pictures.now) }
    ensures { RowsOf (λ i j. predicted_by (luma_sample (wide_of pictures.now) (x + i) (y + j)) (sources_in pictures.now) motion.now) side side out.new }
{
    if uses(0, motion) {
        if uses(1, motion) {
            luma_of_both(pictures, motion, x, y, side, out);
        } else {
            luma_of(pictures, 0, motion, x, y, side, out);
        }
    } else if uses(1, motion) {
        luma_of(pictures, 1, motion, x, y, side, out);
    } else {
        clear(out);
    }
}

// The luma samples of a macroblock by its four 8x8 blocks, row by row.
fn luma_quarters(pictures: &Pictures<'_>, site: &Site, motion: &[Motion; 4]) -> [u8; 256]
    requires lent { AreLent pictures.now }
    requires inside { IsIn site.now pictures.now }
    requires fits { AllFit (count0 pictures.now) (count1 pictures.now) motion.now }
    requires short { AllSmall 131 motion.now }
    ensures { RowsOf (λ i j. predicted_by (luma_sample (wide_of pictures.now) (site.now.x + i) (site.now.y + j)) (sources_in pictures.now) (slice_index_or motion.now (2 * (j / 8) + i / 8) no_motion)) 16 16 result }
{
    let mut out = [0u8; 256];
    for k in 0..4u32 {
        let mut block = [0u8; 256];
        let x = 8 * (k % 2);
        let y = 8 * (k / 2);
        let here = motion_at(motion, k as usize);
        luma_part(pictures, &here, site.x + x, site.y + y, 8, &mut block);
        put::<8>(&block, x as usize, y as usize, 16, &mut out);
    }
    out
}

/// The luma samples that motion predicts of a macroblock, row by row.
pub fn predict_luma(pictures: &Pictures<'_>, site: &Site, motion: &[Motion; 4]) -> [u8; 256]
    requires lent { AreLent pictures.now }
    requires inside { IsIn site.now pictures.now }
    requires fits { AllFit (count0 pictures.now) (count1 pictures.now) motion.now }
    requires short { AllSmall 131 motion.now }
    ensures { (mb : MbRecord) → mb.motion ≡ motion.now → result ≡ luma_predicted (wide_of pictures.now) (sources_in pictures.now) site.now mb }
{
    if is_one(motion) {
        let mut out = [0u8; 256];
        let whole = motion_at(motion, 0);
        luma_part(pictures, &whole, site.x, site.y, 16, &mut out);
        return out;
    }
    luma_quarters(pictures, site, motion)
}
