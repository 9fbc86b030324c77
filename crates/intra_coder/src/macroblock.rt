// Whole intra macroblocks and their records.
ghost use Rattle.std.specs.Prelude.{◌≡◌, ◌≤◌, ◌<◌, ◌+◌, ◌*◌, ◌++◌, ◌∷◌, ℕ, length, replicate, slice_index, slice_range};
ghost use Rattle.residual_coder.specs.Inside.{IsSource};
ghost use Rattle.intra_coder.specs.Reach.{Stands};
ghost use Rattle.residual_coder.specs.Stripes.{planes_in};
ghost use Rattle.picture_planes.specs.Pictures.{SameShapes, planes_of};
ghost use Rattle.spec_reconstruction.specs.Chroma.{chroma_ac, chroma_built, chroma_dc};
ghost use Rattle.spec_reconstruction.specs.Records.{bit_if, chroma_pattern, intra16_record, intra4_record, intra8_record, intra_built, intra_record, luma_pattern};
ghost use Rattle.spec_contexts.specs.Increments.{some_level};

use crate::chroma::code_components;
use crate::luma4::code_luma4;
use crate::luma8::code_luma8;
use crate::luma16::code_luma16;
use enc_tables::{MbKind, MbRecord, Motion, Vector};
use picture_planes::{Picture, Stripe};
use residual_coder::{bit_if, chroma_pattern, luma_pattern, some_level};
use spec_reconstruction::Site;

// What the syntax says of an intra macroblock's luma samples.
#[derive(Clone, Copy)]
struct Luma {
    kind: MbKind,
    transform8: bool,
    modes: [u8; 16],
    pattern: u8,
    dc: [i16; 16],
    levels: [i16; 256],
}

#[tactic(auto, unfolding(spec_reconstruction::specs::Records::intra_record))]
fn record_of(luma: &Luma, chroma_mode: u8, qp: u8, dc: &[i16; 8], ac: &[i16; 120]) -> MbRecord
    ensures { result ≡ intra_record luma.now.kind luma.now.transform8 luma.now.modes chroma_mode qp luma.now.pattern luma.now.dc luma.now.levels dc.now ac.now }
{
    MbRecord {
        kind: luma.kind,
        transform8: luma.transform8,
        modes: luma.modes,
        chroma_mode,
        motion: [Motion::NONE; 4],
        mvd: [Vector::ZERO; 8],
        luma_cbp: luma.pattern,
        chroma_cbp: chroma_pattern(dc, ac),
        qp,
        luma_dc: luma.dc,
        luma: luma.levels,
        chroma_dc: *dc,
        chroma_ac: *ac,
    }
}

/// The modes of an Intra_16x16 macroblock: the first place has its mode.
#[inline(always)]
pub fn first_mode(mode: u8) -> [u8; 16]
    ensures { result ≡ mode ∷ replicate 15 0 }
{
    let mut modes = [0u8; 16];
    modes[0] = mode;
    modes
}

/// Codes an Intra_4x4 macroblock: its record, and the stripe's planes as a decoder builds them of it. The site is one of the whole picture.
pub fn code_intra4(
    stripe: &mut Stripe<'_>,
    source: &Picture,
    site: &Site,
    modes: &[u8; 16],
    chroma_mode: u8,
) -> MbRecord
    requires in_range { site.now.qp ≤ 51 }
    requires stands { Stands site.now (16 * stripe.old.first) stripe.old.picture.now.y }
    requires source { IsSource 16 site.now.y stripe.old.picture.now.y source.now.y }
    requires modes { (b : ℕ) → b < 16 → slice_index modes.now b < 9 }
    requires chroma_mode { chroma_mode < 4 }
    ensures same_reference { stripe.new.picture.ghost_name ≡ stripe.old.picture.ghost_name }
    ensures first { stripe.new.first ≡ stripe.old.first }
    ensures shapes { SameShapes stripe.old.picture.now stripe.new.picture.now }
    ensures record { result ≡ intra4_record stripe.old.picture.now.y.width site.now modes.now chroma_mode (planes_of source.now) (planes_in stripe.old) }
    ensures planes { planes_in stripe.new ≡ intra_built stripe.old.picture.now.y.width site.now result (planes_in stripe.old) }
{
    let picture = &mut *stripe.picture;
    let levels = code_luma4(&mut picture.y, 16 * stripe.first, &source.y, site, modes);
    let chroma = code_components(
        &mut picture.cb,
        &mut picture.cr,
        8 * stripe.first,
        source,
        site,
        chroma_mode,
    );
    let luma = Luma {
        kind: MbKind::Intra4,
        transform8: false,
        modes: *modes,
        pattern: luma_pattern(&levels),
        dc: [0; 16],
        levels,
    };
    record_of(&luma, chroma_mode, site.qp, &chroma.dc, &chroma.ac)
}

/// Codes an Intra_8x8 macroblock. Of the modes the first four count; the others stand in the record as they are.
pub fn code_intra8(
    stripe: &mut Stripe<'_>,
    source: &Picture,
    site: &Site,
    modes: &[u8; 16],
    chroma_mode: u8,
) -> MbRecord
    requires in_range { site.now.qp ≤ 51 }
    requires stands { Stands site.now (16 * stripe.old.first) stripe.old.picture.now.y }
    requires source { IsSource 16 site.now.y stripe.old.picture.now.y source.now.y }
    requires modes { (b : ℕ) → b < 4 → slice_index modes.now b < 9 }
    requires chroma_mode { chroma_mode < 4 }
    ensures same_reference { stripe.new.picture.ghost_name ≡ stripe.old.picture.ghost_name }
    ensures first { stripe.new.first ≡ stripe.old.first }
    ensures shapes { SameShapes stripe.old.picture.now stripe.new.picture.now }
    ensures record { result ≡ intra8_record stripe.old.picture.now.y.width site.now modes.now chroma_mode (planes_of source.now) (planes_in stripe.old) }
    ensures planes { planes_in stripe.new ≡ intra_built stripe.old.picture.now.y.width site.now result (planes_in stripe.old) }
{
    let picture = &mut *stripe.picture;
    let levels = code_luma8(&mut picture.y, 16 * stripe.first, &source.y, site, modes);
    let chroma = code_components(
        &mut picture.cb,
        &mut picture.cr,
        8 * stripe.first,
        source,
        site,
        chroma_mode,
    );
    let luma = Luma {
        kind: MbKind::Intra8,
        transform8: true,
        modes: *modes,
        pattern: luma_pattern(&levels),
        dc: [0; 16],
        levels,
    };
    record_of(&luma, chroma_mode, site.qp, &chroma.dc, &chroma.ac)
}

/// Codes an Intra_16x16 macroblock.
pub fn code_intra16(
    stripe: &mut Stripe<'_>,
    source: &Picture,
    site: &Site,
    mode: u8,
    chroma_mode: u8,
) -> MbRecord
    requires in_range { site.now.qp ≤ 51 }
    requires stands { Stands site.now (16 * stripe.old.first) stripe.old.picture.now.y }
    requires source { IsSource 16 site.now.y stripe.old.picture.now.y source.now.y }
    requires mode { mode < 4 }
    requires chroma_mode { chroma_mode < 4 }
    ensures same_reference { stripe.new.picture.ghost_name ≡ stripe.old.picture.ghost_name }
    ensures first { stripe.new.first ≡ stripe.old.first }
    ensures shapes { SameShapes stripe.old.picture.now stripe.new.picture.now }
    ensures record { result ≡ intra16_record stripe.old.picture.now.y.width site.now mode chroma_mode (planes_of source.now) (planes_in stripe.old) }
    ensures planes { planes_in stripe.new ≡ intra_built stripe.old.picture.now.y.width site.now result (planes_in stripe.old) }
{
    let picture = &mut *stripe.picture;
    let coded = code_luma16(&mut picture.y, 16 * stripe.first, &source.y, site, mode);
    let chroma = code_components(
        &mut picture.cb,
        &mut picture.cr,
        8 * stripe.first,
        source,
        site,
        chroma_mode,
    );
    let luma = Luma {
        kind: MbKind::Intra16,
        transform8: false,
        modes: first_mode(mode),
        pattern: bit_if(some_level(&coded.levels), 15),
        dc: coded.dc,
        levels: coded.levels,
    };
    record_of(&luma, chroma_mode, site.qp, &chroma.dc, &chroma.ac)
}
