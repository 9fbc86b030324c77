// The samples of inter macroblocks.
ghost use Rattle.std.specs.Prelude.{◌≡◌, ◌≤◌, ◌<◌, ◌+◌, ◌*◌, ◌/◌, ◌%◌, ℕ, take, drop, if◌then◌else◌};
ghost use Rattle.picture_planes.specs.Samples.{SameShape};
ghost use Rattle.picture_planes.specs.Pictures.{SameShapes};
ghost use Rattle.spec_residual.specs.declared.BlockKind.TheVariants.{Luma4};
ghost use Rattle.spec_reconstruction.specs.Inter.{Sources, inter4, inter8, inter_built};
ghost use Rattle.spec_reconstruction.specs.InOrder.{built_in_order, levels_of_block};
ghost use Rattle.spec_coded.specs.Levels.{predicted_planes};
ghost use Rattle.residual_coder.specs.Inside.{Inside};
ghost use Rattle.residual_coder.specs.Made.{IsQuantised, IsQuantised8};
ghost use Rattle.residual_coder.specs.Stripes.{samples_from, planes_in};
ghost use Rattle.inter_coder.specs.Made.{planes_at, LumaCoded, IsCoded};

use crate::prediction::Predicted;
use enc_tables::MbRecord;
use picture_planes::{Plane, Stripe};
use residual_coder::{
    Chroma, block_column, block_row, build_chroma, built4, built8, part8, part16, write_block,
};
use spec_reconstruction::Site;

// The levels of 4x4 block `b`.
#[inline(always)]
fn levels4_of(levels: &[i16; 256], b: u32) -> [i16; 16]
    requires { b < 16 }
    ensures { result ≡ levels_of_block 16 b levels.now }
{
    let mut block = [0i16; 16];
    let start = b as usize * 16;
    let end = start + 16;
    block.copy_from_slice(&levels[start..end]);
    block
}

// The levels of 8x8 block `k`.
#[inline(always)]
fn levels8_of(levels: &[i16; 256], k: u32) -> [i16; 64]
    requires { k < 4 }
    ensures { result ≡ levels_of_block 64 k levels.now }
{
    let mut block = [0i16; 64];
    let start = k as usize * 64;
    let end = start + 64;
    block.copy_from_slice(&levels[start..end]);
    block
}

// Builds 4x4 block `b` in the plane from its levels over its part of the prediction.
#[inline(always)]
fn build_block4(
    plane: &mut Plane,
    top: u32,
    site: &Site,
    prediction: &[u8; 256],
    levels: &[i16; 256],
    b: u32,
)
    requires block { b < 16 }
    requires in_range { site.now.qp ≤ 51 }
    requires top { top < 2304 }
    requires inside { Inside 16 top plane.old site.now.x site.now.y }
    requires quantised { IsQuantised Luma4 site.now.qp (levels_of_block 16 b levels.now) }
    ensures shape { SameShape plane.old plane.new }
    ensures samples { samples_from top plane.new ≡ inter4 plane.old.width site.now prediction.now b (levels_of_block 16 b levels.now) (samples_from top plane.old) }
{
    let x = site.x + 4 * block_column(b);
    let y = site.y + 4 * block_row(b);
    let part = part16(prediction, b);
    let block = levels4_of(levels, b);
    let samples = built4(site.qp, &block, &part);
    write_block(plane, top, x, y, 4, &samples);
}

fn build_luma4(
    plane: &mut Plane,
    top: u32,
    site: &Site,
    prediction: &[u8; 256],
    levels: &[i16; 256],
)
    requires in_range { site.now.qp ≤ 51 }
    requires top { top < 2304 }
    requires inside { Inside 16 top plane.old site.now.x site.now.y }
    requires quantised { (b : ℕ) → b < 16 → IsQuantised Luma4 site.now.qp (levels_of_block 16 b levels.now) }
    ensures shape { SameShape plane.old plane.new }
    ensures samples { samples_from top plane.new ≡ built_in_order (inter4 plane.old.width site.now prediction.now) 16 levels.now 16 (samples_from top plane.old) }
{
    for b in 0..16u32 {
        build_block4(plane, top, site, prediction, levels, b);
    }
}

// Builds 8x8 block `k` in the plane from its levels over its part of the prediction.
#[inline(always)]
fn build_block8(
    plane: &mut Plane,
    top: u32,
    site: &Site,
    prediction: &[u8; 256],
    levels: &[i16; 256],
    k: u32,
)
    requires block { k < 4 }
    requires in_range { site.now.qp ≤ 51 }
    requires top { top < 2304 }
    requires inside { Inside 16 top plane.old site.now.x site.now.y }
    requires quantised { IsQuantised8 site.now.qp (levels_of_block 64 k levels.now) }
    ensures shape { SameShape plane.old plane.new }
    ensures samples { samples_from top plane.new ≡ inter8 plane.old.width site.now prediction.now k (levels_of_block 64 k levels.now) (samples_from top plane.old) }
{
    let part = part8(prediction, k);
    let block = levels8_of(levels, k);
    let samples = built8(site.qp, &block, &part);
    write_block(
        plane,
        top,
        site.x + 8 * (k % 2),
        site.y + 8 * (k / 2),
        8,
        &samples,
    );
}

fn build_luma8(
    plane: &mut Plane,
    top: u32,
    site: &Site,
    prediction: &[u8; 256],
    levels: &[i16; 256],
)
    requires in_range { site.now.qp ≤ 51 }
    requires top { top < 2304 }
    requires inside { Inside 16 top plane.old site.now.x site.now.y }
    requires quantised { (k : ℕ) → k < 4 → IsQuantised8 site.now.qp (levels_of_block 64 k levels.now) }
    ensures shape { SameShape plane.old plane.new }
    ensures samples { samples_from top plane.new ≡ built_in_order (inter8 plane.old.width site.now prediction.now) 64 levels.now 4 (samples_from top plane.old) }
{
    for k in 0..4u32 {
        build_block8(plane, top, site, prediction, levels, k);
    }
}

// Builds the luma samples, by the transform of the macroblock's levels.
fn build_luma(plane: &mut Plane, top: u32, site: &Site, prediction: &[u8; 256], mb: &MbRecord)
    requires in_range { site.now.qp ≤ 51 }
    requires top { top < 2304 }
    requires inside { Inside 16 top plane.old site.now.x site.now.y }
    requires quantised { LumaCoded site.now.qp mb.now.transform8 mb.now.luma }
    ensures shape { SameShape plane.old plane.new }
    ensures samples { samples_from top plane.new ≡ (if mb.now.transform8 then built_in_order (inter8 plane.old.width site.now prediction.now) 64 mb.now.luma 4 (samples_from top plane.old) else built_in_order (inter4 plane.old.width site.now prediction.now) 16 mb.now.luma 16 (samples_from top plane.old)) }
{
    if mb.transform8 {
        build_luma8(plane, top, site, prediction, &mb.luma);
    } else {
        build_luma4(plane, top, site, prediction, &mb.luma);
    }
}

// The levels of Cb, and those of Cr.
fn first_of(mb: &MbRecord) -> Chroma
    ensures { (result.dc ≡ take 4 mb.now.chroma_dc) × (result.ac ≡ take 60 mb.now.chroma_ac) }
{
    let mut levels = Chroma {
        dc: [0; 4],
        ac: [0; 60],
    };
    levels.dc.copy_from_slice(&mb.chroma_dc[..4]);
    levels.ac.copy_from_slice(&mb.chroma_ac[..60]);
    levels
}

fn second_of(mb: &MbRecord) -> Chroma
    ensures { (result.dc ≡ drop 4 mb.now.chroma_dc) × (result.ac ≡ drop 60 mb.now.chroma_ac) }
{
    let mut levels = Chroma {
        dc: [0; 4],
        ac: [0; 60],
    };
    levels.dc.copy_from_slice(&mb.chroma_dc[4..8]);
    levels.ac.copy_from_slice(&mb.chroma_ac[60..120]);
    levels
}

/// Builds an inter macroblock in a stripe from its levels over what its motion predicts, as a decoder does (clauses 8.5.1 to 8.5.4).
pub fn build_over(stripe: &mut Stripe<'_>, site: &Site, prediction: &Predicted, mb: &MbRecord)
    requires in_range { site.now.qp ≤ 51 }
    requires inside { Inside 16 (16 * stripe.old.first) stripe.old.picture.now.y site.now.x site.now.y }
    requires quantised { IsCoded site.now.qp mb.now }
    ensures same_reference { stripe.new.picture.ghost_name ≡ stripe.old.picture.ghost_name }
    ensures first { stripe.new.first ≡ stripe.old.first }
    ensures shapes { SameShapes stripe.old.picture.now stripe.new.picture.now }
    ensures planes { (s : Sources) → planes_at prediction.now ≡ predicted_planes stripe.old.picture.now.y.width s site.now mb.now → planes_in stripe.new ≡ inter_built stripe.old.picture.now.y.width s site.now mb.now (planes_in stripe.old) }
{
    let picture = &mut *stripe.picture;
    build_luma(
        &mut picture.y,
        16 * stripe.first,
        site,
        &prediction.luma,
        mb,
    );
    let cb = first_of(mb);
    build_chroma(&mut picture.cb, 8 * stripe.first, site, &prediction.cb, &cb);
    let cr = second_of(mb);
    build_chroma(&mut picture.cr, 8 * stripe.first, site, &prediction.cr, &cr);
}
