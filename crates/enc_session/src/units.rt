// The access unit of a picture.
ghost use Rattle.std.specs.Prelude.{◌≡◌, ◌≤◌, ◌<◌, ◌+◌, ◌*◌, ◌%◌, ◌++◌, length, true, false, None, Some, IfOk, if◌then◌else◌};
ghost use Rattle.bit_strings.specs.BitText.{BitText};
ghost use Rattle.buffer_control.specs.Seen.{rate_of as rate_in, spent_of};
ghost use Rattle.picture_coder.specs.Coders.{HasOwnSizes, lent_reference};
ghost use Rattle.picture_coder.specs.Sizes.{HasSizes};
ghost use Rattle.picture_planes.specs.Pictures.{planes_of};
ghost use Rattle.ref_lists.specs.Stored.{SameStore, held_of};
ghost use Rattle.spec_bits.specs.Bits.{bits_of_bytes};
ghost use Rattle.spec_buffer.specs.Ledger.{available, filler_bytes, initial_delay};
ghost use Rattle.spec_film_coder.specs.Sound.{StepFits};
ghost use Rattle.spec_lists.specs.References.{kept};
ghost use Rattle.spec_plan.specs.Delays.{removal_ticks, output_ticks};
ghost use Rattle.spec_session.specs.Encodings.{reorders, sequence_of};
ghost use Rattle.spec_session.specs.Settings.{settled};
ghost use Rattle.unit_writer.specs.Parts.{filler_bytes as filler_text};
ghost use Rattle.enc_session.specs.Asking.{MayFollow, SameCoder};
ghost use Rattle.enc_session.specs.Ready.{Holds, settings_in, state_in, units_in, unit_room};
ghost use Rattle.enc_session.specs.Steps.{front_in, IsReset, MadeLeft};

use crate::GroupEnd;
use crate::engine::Engine;
use crate::front::{UnitDelays, begin_unit};
use crate::jobs::code_slices;
use bit_strings::BitBuf;
use buffer_control::Ledger;
use enc_edge::Gate;
use enc_tables::PlanStep;
use gop_plan::{output_delay, removal_delay};
use param_sets::{SeqHead, Timing};
use picture_coder::{picture_units_make_accesses, pictures_count_in_turns};
use picture_planes::Picture;
use ref_lists::RefStore;
use spec_film::FilmHead;
use spec_words::command::Settings;
use unit_writer::{units_make_accesses, write_filler};

/// What was made of a picture.
#[derive(Clone, Copy)]
pub(crate) struct Made {
    /// The quantisation parameter of its slices.
    pub(crate) qp: u8,
    /// Whether it is the coarsest coding.
    pub(crate) coarsest: bool,
    /// The bits of its access unit, without filler.
    pub(crate) bits: u64,
    /// The bytes of filler behind it.
    pub(crate) filler: u32,
    /// The bits that were there for it.
    pub(crate) have: u64,
    /// How many vectors were compared.
    pub(crate) compared: u64,
}

// What the sequence parameter set says.
fn sequence_head(settings: &Settings, head: &FilmHead, level: u8) -> SeqHead
    ensures { result ≡ sequence_of (settled settings.now head.now level) }
{
    SeqHead {
        width: head.width,
        height: head.height,
        level,
        refs: settings.refs,
        timing: Some(Timing {
            num: head.num,
            den: head.den,
            rate: settings.rate,
            cpb: settings.cpb,
            reorder: settings.bframes != 0,
        }),
    }
}

// The initial removal delay where a buffering period begins, as it does with each IDR picture.
fn initial_of(ledger: &Ledger, idr: bool) -> Option<u32>
    ensures { result ≡ (if idr then Some (initial_delay (rate_in ledger.now) (spent_of ledger.now)) else None) }
{
    if idr { Some(ledger.bp_delay()) } else { None }
}

// The delays of a picture; before the last IDR picture there were `last_idr` units.
fn delays_of(ledger: &Ledger, last_idr: u32, reorders: bool, step: &PlanStep) -> UnitDelays
    requires order { last_idr ≤ (spent_of ledger.now).units }
    requires few { (spent_of ledger.now).units ≤ 1000000 }
    requires display { step.now.display < 1000000 }
    requires late { (spent_of ledger.now).units ≤ step.now.display + (if reorders then 1 else 0) }
    ensures initial { result.initial ≡ (if step.now.idr then Some (initial_delay (rate_in ledger.now) (spent_of ledger.now)) else None) }
    ensures removal { result.removal ≡ removal_ticks (spent_of ledger.now).units last_idr }
    ensures output { result.output ≡ output_ticks reorders step.now.display (spent_of ledger.now).units }
{
    let units = ledger.units();
    UnitDelays {
        initial: initial_of(ledger, step.idr),
        removal: removal_delay(units, last_idr),
        output: output_delay(reorders, step.display, units),
    }
}

// Gives up all references before an IDR picture.
fn reset_before(store: &mut RefStore, idr: bool)
    ensures { IsReset idr store.old store.new }
{
    if idr {
        store.reset();
    }
}

// Appends the filler that is due behind an access unit, and answers with the bits of the unit without it and the bytes
// of the filler.
fn fill_unit(ledger: &Ledger, unit: &mut BitBuf) -> (u64, u32)
    requires whole { length unit.old.text % 8 ≡ 0 }
    requires fits { length unit.old.text ≤ available (rate_in ledger.now) (spent_of ledger.now) }
    requires room { unit.old.room ≡ available (rate_in ledger.now) (spent_of ledger.now) }
    ensures bits { result.0 ≡ length unit.old.text }
    ensures filler { result.1 ≡ filler_bytes (rate_in ledger.now) (spent_of ledger.now) (length unit.old.text) }
    ensures unit { unit.new ≡ record unit.old { text = unit.old.text ++ bits_of_bytes (filler_text result.1) } }
{
    let bits = unit.len();
    let filler = ledger.filler_bytes(bits);
    // The unit with its filler has at most the bits that are there.
    let _ = write_filler(unit, filler);
    (bits, filler)
}

impl Engine {
    // Begins the access unit of a step's picture.
    fn begin(&mut self, step: &PlanStep)
        requires holds { Holds self.old }
        requires few { units_in self.old ≤ 1000000 }
        requires display { step.now.display < 1000000 }
        requires late { units_in self.old ≤ step.now.display + (if reorders (settings_in self.old) then 1 else 0) }
        ensures unit { self.new ≡ record self.old { unit = record { text = bits_of_bytes (front_in self.old step.now); room = unit_room self.old.settings.cpb; made = unit_room self.old.settings.cpb } } }
        ensures short { length self.new.unit.text ≤ 65536 }
    {
        let head = sequence_head(&self.settings, &self.head, self.level);
        let reorders = self.settings.bframes != 0;
        let delays = delays_of(&self.ledger, self.last_idr, reorders, step);
        self.unit.clear();
        self.unit.limit(u64::from(self.settings.cpb.max(65536)));
        begin_unit(
            &mut self.unit,
            &mut self.payload,
            &head,
            self.settings.t8x8,
            step.idr,
            &delays,
        );
    }

    /// Makes the access unit of a step's picture, with filler, by the first trial that fits what is there. `source` is
    /// the picture; its margins are filled. `Buffer` comes exactly where no trial fits.
    pub(crate) fn make_unit<R, G: Gate + Sync>(
        &mut self,
        rt: &R,
        step: PlanStep,
        source: &mut Picture,
        gate: &G,
    ) -> Result<Made, GroupEnd>
        requires holds { Holds self.old }
        requires step { StepFits step.idr step.kind step }
        requires follows { step.idr ≡ false → MayFollow self.old.store step }
        requires few { units_in self.old ≤ 1000000 }
        requires display { step.display < 1000000 }
        requires late { units_in self.old ≤ step.display + (if reorders (settings_in self.old) then 1 else 0) }
        requires source { HasSizes self.old.head.width self.old.head.height source.old }
        ensures left { MadeLeft (settings_in self.old) (state_in self.old) step (planes_of source.old) self.new.unit (lent_reference self.new.coder) result }
        ensures source { HasSizes self.old.head.width self.old.head.height source.new }
        ensures store { IsReset step.idr self.old.store self.new.store }
        ensures sizes { HasOwnSizes self.new.coder }
        ensures coder { SameCoder self.old.coder self.new.coder }
        ensures unit { IfOk result (λ _. self.new.unit.made ≡ unit_room self.old.settings.cpb) }
        ensures others { self.new ≡ record self.old { store = self.new.store; coder = self.new.coder; unit = self.new.unit } }
    {
        units_make_accesses();
        picture_units_make_accesses();
        pictures_count_in_turns();
        reset_before(&mut self.store, step.idr);
        source.pad_edges();
        self.begin(&step);
        let have = self.ledger.available();
        let start = self.ledger.start_qp(step.kind);
        match code_slices(
            rt,
            &mut self.coder,
            &self.store,
            &self.settings,
            self.idrs,
            step,
            source,
            start,
            have,
            gate,
            &mut self.unit,
        ) {
            Ok((pick, compared)) => {
                let (bits, filler) = fill_unit(&self.ledger, &mut self.unit);
                Ok(Made {
                    qp: pick.qp,
                    coarsest: pick.coarsest,
                    bits,
                    filler,
                    have,
                    compared,
                })
            }
            Err(need) => Err(GroupEnd::Buffer {
                picture: step.display,
                need,
                have,
            }),
        }
    }
}
