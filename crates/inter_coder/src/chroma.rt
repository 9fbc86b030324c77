// Chroma samples that are predicted by motion.
ghost use Rattle.std.specs.Prelude.{◌≡◌, ◌≤◌, ◌<◌, ◌+◌, ◌*◌, ◌/◌, ◌%◌, ◌⊎◌, ℕ, true, negsuc, Some, slice_index_or};
ghost use Rattle.enc_tables.specs.declared.records.MbRecord.{MbRecord};
ghost use Rattle.enc_tables.specs.Records.{no_motion, is_used};
ghost use Rattle.spec_inter.specs.Blocks.{RowsOf};
ghost use Rattle.spec_inter.specs.Taps.{mean};
ghost use Rattle.spec_partitions.specs.InRange.{MotionFits, AllFit};
ghost use Rattle.spec_partitions.specs.Small.{BlockSmall, AllSmall};
ghost use Rattle.spec_reconstruction.specs.Inter.{predicted_by, chroma_predicted};
ghost use Rattle.inter_coder.specs.Given.{wide_of, tall_of, count0, count1, sources_in, chroma_sample, component, predicted_in, AreLent, IsIn};

use crate::blocks::{clear, is_one, motion_at, put};
use crate::given::Pictures;
use crate::references::{places_of, reference_at, uses, vector_at};
use bi_pred::average;
use enc_tables::Motion;
use spec_reconstruction::Site;
use subpel_filter::chroma_block;

// A square block of samples of the chroma component of a number, as one reference predicts it by the vector of a list that the motion uses.
fn chroma_of(
    pictures: &Pictures<'_>,
    number: u8,
    list: u8,
    motion: &Motion,
    x: u32,
    y: u32,
    side: u32,
    out: &mut [u8; 64],
)
    requires number { (1 ≤ number) × (number ≤ 2) }
    requires lent { AreLent pictures.now }
    requires fits { MotionFits (count0 pictures.now) (count1 pictures.now) motion.now }
    requires short { BlockSmall 131 (Some motion.now) }
    requires side { (side ≡ 4) ⊎ (side ≡ 8) }
    requires inside { (x + side ≤ wide_of pictures.now / 2) × (y + side ≤ tall_of pictures.now / 2) }
    requires list { list < 2 }
    requires used { is_used (slice_index_or motion.now.refs list (negsuc 0)) ≡ true }
    ensures { RowsOf (λ i j. predicted_in (chroma_sample (component number) (wide_of pictures.now / 2) (x + i) (y + j)) (sources_in pictures.now) list motion.now) side side out.new }
{
    let lists = pictures.lists;
    let reference = reference_at(lists.held, places_of(lists, list), list, motion);
    let vector = vector_at(list, motion);
    chroma_block(
        reference.picture.plane(number),
        x,
        y,
        vector,
        side,
        side,
        out,
    );
}

// The same from both lists: the mean of what each predicts.
fn chroma_of_both(
    pictures: &Pictures<'_>,
    number: u8,
    motion: &Motion,
    x: u32,
    y: u32,
    side: u32,
    out: &mut [u8; 64],
)
    requires number { (1 ≤ number) × (number ≤ 2) }
    requires lent { AreLent pictures.now }
    requires fits { MotionFits (count0 pictures.now) (count1 pictures.now) motion.now }
    requires short { BlockSmall 131 (Some motion.now) }
    requires side { (side ≡ 4) ⊎ (side ≡ 8) }
    requires inside { (x + side ≤ wide_of pictures.now / 2) × (y + side ≤ tall_of pictures.now / 2) }
    requires used0 { is_used (slice_index_or motion.now.refs 0 (negsuc 0)) ≡ true }
    requires used1 { is_used (slice_index_or motion.now.refs 1 (negsuc 0)) ≡ true }
    ensures { RowsOf (λ i j. mean (predicted_in (chroma_sample (component number) (wide_of pictures.now / 2) (x + i) (y + j)) (sources_in pictures.now) 0 motion.now) (predicted_in (chroma_sample (component number) (wide_of pictures.now / 2) (x + i) (y + j)) (sources_in pictures.now) 1 motion.now)) side side out.new }
{
    let mut one = [0u8; 64];
    let mut other = [0u8; 64];
    chroma_of(pictures, number, 0, motion, x, y, side, &mut one);
    chroma_of(pictures, number, 1, motion, x, y, side, &mut other);
    let count = (side * side) as usize;
    average(&one[..count], &other[..count], &mut out[..count]);
}

// A square block of samples of the chroma component of a number that motion predicts; 0 where it uses neither list.
fn chroma_part(
    pictures: &Pictures<'_>,
    number: u8,
    motion: &Motion,
    x: u32,
    y: u32,
    side: u32,
    out: &mut [u8; 64],
)
    requires number { (1 ≤ number) × (number ≤ 2) }
    requires lent { AreLent pictures.now }
    requires fits { MotionFits (count0 pictures.now) (count1 pictures.now) motion.now }
    requires short { BlockSmall 131 (Some motion.now) }
    requires side { (side ≡ 4) ⊎ (side ≡ 8) }
    requires inside { (x + side ≤ wide_of pictures.now / 2) × (y + side ≤ tall_of pictures.now / 2) }
    ensures { RowsOf (λ i j. predicted_by (chroma_sample (component number) (wide_of pictures.now / 2) (x + i) (y + j)) (sources_in pictures.now) motion.now) side side out.new }
{
    if uses(0, motion) {
        if uses(1, motion) {
            chroma_of_both(pictures, number, motion, x, y, side, out);
        } else {
            chroma_of(pictures, number, 0, motion, x, y, side, out);
        }
    } else if uses(1, motion) {
        chroma_of(pictures, number, 1, motion, x, y, side, out);
    } else {
        clear(out);
    }
}

// The samples of a chroma component of a macroblock by its four 8x8 luma blocks, row by row.
fn chroma_quarters(
    pictures: &Pictures<'_>,
    number: u8,
    site: &Site,
    motion: &[Motion; 4],
) -> [u8; 64]
    requires number { (1 ≤ number) × (number ≤ 2) }
    requires lent { AreLent pictures.now }
    requires inside { IsIn site.now pictures.now }
    requires fits { AllFit (count0 pictures.now) (count1 pictures.now) motion.now }
    requires short { AllSmall 131 motion.now }
    ensures { RowsOf (λ i j. predicted_by (chroma_sample (component number) (wide_of pictures.now / 2) (site.now.x / 2 + i) (site.now.y / 2 + j)) (sources_in pictures.now) (slice_index_or motion.now (2 * (j / 4) + i / 4) no_motion)) 8 8 result }
{
    let mut out = [0u8; 64];
    for k in 0..4u32 {
        let mut block = [0u8; 64];
        let x = 4 * (k % 2);
        let y = 4 * (k / 2);
        let here = motion_at(motion, k as usize);
        chroma_part(
            pictures,
            number,
            &here,
            site.x / 2 + x,
            site.y / 2 + y,
            4,
            &mut block,
        );
        put::<4>(&block, x as usize, y as usize, 8, &mut out);
    }
    out
}

/// The samples that motion predicts of a chroma component of a macroblock, row by row: of Cb where `number` is 1, and of Cr where it is 2.
pub fn predict_chroma(
    pictures: &Pictures<'_>,
    number: u8,
    site: &Site,
    motion: &[Motion; 4],
) -> [u8; 64]
    requires number { (1 ≤ number) × (number ≤ 2) }
    requires lent { AreLent pictures.now }
    requires inside { IsIn site.now pictures.now }
    requires fits { AllFit (count0 pictures.now) (count1 pictures.now) motion.now }
    requires short { AllSmall 131 motion.now }
    ensures { (mb : MbRecord) → mb.motion ≡ motion.now → result ≡ chroma_predicted (component number) (wide_of pictures.now) (sources_in pictures.now) site.now mb }
{
    if is_one(motion) {
        let mut out = [0u8; 64];
        let whole = motion_at(motion, 0);
        chroma_part(
            pictures,
            number,
            &whole,
            site.x / 2,
            site.y / 2,
            8,
            &mut out,
        );
        return out;
    }
    chroma_quarters(pictures, number, site, motion)
}
