// Prediction of a partition from both lists.
ghost use Rattle.std.specs.Prelude.{◌≡◌, ◌≤◌, ◌<◌, ◌+◌, ◌*◌, ℕ};
ghost use Rattle.motion_search.specs.Planes.{IsBlockOf};
ghost use Rattle.ref_lists.specs.Held.{IsMade, IsReady};
ghost use Rattle.spec_inter.specs.Blocks.{RowsOf};
ghost use Rattle.spec_inter.specs.Taps.{mean};
ghost use Rattle.spec_inter_plans.specs.InterPlans.{Search, difference_of, moved_sample};
ghost use Rattle.picture_planes.specs.Pictures.{planes_of};
ghost use Rattle.subpel_filter.specs.Predicted.{IsShort, luma_at};
ghost use Rattle.mode_choice.specs.Given.{IsSourceOf};

use crate::samples::{lemma_bytes_fit, lemma_samples_fit};
use bi_pred::average;
use enc_tables::Vector;
use lane_kernels::{sad_block8, sad_block16};
use picture_planes::Plane;
use ref_lists::Reference;
use spec_search::Block;
use subpel_filter::luma_from;

// The samples of a block that a vector leads to in a reference, row by row.
fn predicted(reference: &Reference, block: Block, v: Vector) -> [u8; 256]
    requires made { IsMade reference.now.picture.y.width reference.now.picture.y.height reference.now }
    requires ready { IsReady reference.now }
    requires block { IsBlockOf reference.now.picture.y block }
    requires short { IsShort v }
    ensures { RowsOf (luma_at reference.now.picture.y block.x block.y v) block.w block.h result }
{
    let mut samples = [0u8; 256];
    let luma = &reference.picture.y;
    luma_from(
        luma,
        &reference.halves,
        block.x,
        block.y,
        v,
        block.w,
        block.h,
        &mut samples,
    );
    samples
}

// The means of two predictions.
fn means(first: &[u8; 256], second: &[u8; 256]) -> [u8; 256]
    ensures { (f g : ℕ → ℕ → ℕ) (w h : ℕ) → w ≤ 16 → h ≤ 16 → RowsOf f w h first.now → RowsOf g w h second.now → RowsOf (λ i j. mean (f i j) (g i j)) w h result }
{
    let mut samples = [0u8; 256];
    average(first, second, &mut samples);
    samples
}

// The sum of absolute differences of a block of the source and samples that are given row by row.
fn difference_from(source: &Plane, block: Block, samples: &[u8; 256]) -> u32
    requires { IsBlockOf source.now block }
    ensures value { (s : Search) (f : ℕ → ℕ → ℕ) → IsSourceOf s source.now → RowsOf f block.w block.h samples.now → result ≡ difference_of s block f }
    ensures small { result ≤ 65280 }
{
    lemma_samples_fit(source);
    lemma_bytes_fit(samples);
    let own = source.rows_from(
        (block.x + source.pad) as usize,
        (block.y + source.pad) as usize,
    );
    let stride = (source.width + 2 * source.pad) as usize;
    if block.w == 16 {
        sad_block16(own, stride, samples, 16, block.h as usize)
    } else {
        sad_block8(own, stride, samples, 8, block.h as usize)
    }
}

/// The sum of absolute differences of a block of the source and its prediction from two references, each by its vector: the rounded mean of
/// both samples.
pub fn difference_of_both(
    source: &Plane,
    first: &Reference,
    second: &Reference,
    block: Block,
    v: Vector,
    w: Vector,
) -> u32
    requires made { IsMade source.now.width source.now.height first.now × IsMade source.now.width source.now.height second.now }
    requires ready { IsReady first.now × IsReady second.now }
    requires block { IsBlockOf source.now block }
    requires short { IsShort v × IsShort w }
    ensures value { (s : Search) → IsSourceOf s source.now → result ≡ difference_of s block (λ i j. mean (moved_sample s block (planes_of first.now.picture) v i j) (moved_sample s block (planes_of second.now.picture) w i j)) }
    ensures small { result ≤ 65280 }
{
    let a = predicted(first, block, v);
    let b = predicted(second, block, w);
    difference_from(source, block, &means(&a, &b))
}
