//! Macroblocks, written as the macroblock layer of ITU-T H.264 (clause 7.3.5) has them, in arithmetic code: those of
//! I, P and B slices, I_PCM left out.
#![tactic(auto)]

ghost use Rattle.std.specs.Prelude.{◌≡◌, false};
ghost use Rattle.spec_contexts.specs.States.{AllKnown};
ghost use Rattle.spec_syntax.specs.Syntax.{Reads};
ghost use Rattle.spec_slice_data.specs.Coding.{GoesOn};
ghost use Rattle.spec_macroblock.specs.Macroblock.{macroblock};
ghost use Rattle.spec_macroblock.specs.Strings.{macroblock_string};
ghost use Rattle.spec_partitions.specs.Near.{View};
ghost use Rattle.spec_partitions.specs.Records.{HasMotion};
ghost use Rattle.spec_macroblock.specs.Records.{IsRecord};
ghost use Rattle.bin_writer.specs.Coding.{seen, IsReady, Codes, Written};
ghost use Rattle.mb_syntax.specs.Around.{near_of};

mod heads;
mod levels;
mod modes;
mod parts;
mod patterns;

use bin_writer::outcome;
use bit_strings::Full;
use cabac_coder::Coder;
use cabac_contexts::Contexts;
use enc_tables::{MbRecord, SliceKind};
use heads::{write_chroma_mode, write_head, write_inter_transform, write_transform};
use levels::{write_chroma_ac, write_chroma_dc, write_luma, write_luma_dc};
use modes::write_modes;
pub use parts::{first_block, part_count, shape_of, uses_list};
use patterns::{write_chroma_pattern, write_luma_pattern, write_qp};

/// What is known around a macroblock before it is written.
#[derive(Clone, Copy)]
pub struct Around<'a> {
    /// The macroblock at the left, where it is available: in the same slice and earlier (clause 6.4.8).
    pub left: Option<&'a MbRecord>,
    /// The macroblock above, where it is available.
    pub above: Option<&'a MbRecord>,
    /// Whether the macroblock before in the slice has an mb_qp_delta that isn't 0.
    pub last_delta: bool,
    /// The slice's type.
    pub kind: SliceKind,
    /// How many entries list 0 has.
    pub refs0: u8,
    /// How many entries list 1 has.
    pub refs1: u8,
    /// Whether 8x8 transforms may be used (transform_8x8_mode_flag).
    pub t8x8: bool,
}

/// Codes a macroblock, without the end_of_slice_flag behind it. `mb` is a record that the syntax can give there, with
/// the QP of the macroblock before. From the first bin that doesn't fit on nothing more is coded, and
/// `Coder::is_full` tells it.
pub fn code_mb(coder: &mut Coder, contexts: &mut Contexts, mb: &MbRecord, around: &Around)
    requires ready { IsReady (seen coder.old contexts.old) }
    requires record_ { IsRecord (near_of around.now mb.now) mb.now }
    ensures { Codes (seen coder.old contexts.old) (macroblock_string (near_of around.now mb.now) mb.now) (seen coder.new contexts.new) }
{
    write_head(coder, contexts, mb, around);
    write_transform(coder, contexts, mb, around);
    write_modes(coder, contexts, mb, around);
    write_chroma_mode(coder, contexts, mb, around);
    write_luma_pattern(coder, contexts, mb, around);
    write_chroma_pattern(coder, contexts, mb, around);
    write_inter_transform(coder, contexts, mb, around);
    write_qp(coder, contexts, mb, around);
    write_luma_dc(coder, contexts, mb, around);
    write_luma(coder, contexts, mb, around);
    write_chroma_dc(coder, contexts, mb, around);
    write_chroma_ac(coder, contexts, mb, around);
}

/// Writes a macroblock, without the end_of_slice_flag behind it. `mb` is a record that the syntax can give there,
/// with the QP of the macroblock before.
///
/// `Full` comes exactly where one of the bins doesn't fit the coder's room; the states of the contexts aren't told
/// then.
pub fn write_mb(
    coder: &mut Coder,
    contexts: &mut Contexts,
    mb: &MbRecord,
    around: &Around,
) -> Result<(), Full>
    requires live { coder.old.ended ≡ false }
    requires known { AllKnown contexts.old.states }
    requires record_ { IsRecord (near_of around.now mb.now) mb.now }
    ensures written { Written result (seen coder.old contexts.old) (macroblock_string (near_of around.now mb.now) mb.now) (seen coder.new contexts.new) }
    ensures ready { IsReady (seen coder.new contexts.new) }

    // The string doesn't end the code, and the macroblock's syntax reads the record back from it.
    ensures goes_on { GoesOn (macroblock_string (near_of around.now mb.now) mb.now) }
    ensures read_back { (view : View) → view.near ≡ near_of around.now mb.now → HasMotion view mb.now → Reads (macroblock view) (macroblock_string (near_of around.now mb.now) mb.now) mb.now }
{
    code_mb(coder, contexts, mb, around);
    outcome(coder)
}
