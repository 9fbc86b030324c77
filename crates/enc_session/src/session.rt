// A session of encoding.
use crate::completing::completed_level;
use crate::ends::failed_output;
use crate::engine::Engine;
use crate::group::code_steps;
use crate::opening::{blank_slots, first_engine};
use crate::showing::show_group;
use crate::{GroupEnd, OpenEnd};
use enc_edge::{Gate, Out, Studio};
use enc_tables::PlanStep;
use picture_planes::Picture;
use spec_film::FilmHead;
use spec_words::command::Settings;
use std::alloc::Global;

/// Encodes a film group by group. Pictures are put into the slots, then the group is coded.
///
/// All memory is taken when it is opened.
#[derive(Drop)]
pub struct Session {
    engine: Engine,
    // The pictures of a group, in display order.
    slots: Vec<Picture>,
}

impl Session {
    ghost use Rattle.std.specs.Prelude.{◌≡◌, ◌≤◌, ◌+◌, ℕ, List, length, take, map, slice_get, None, Some, Ok, Err, IfOk, IsOk};
    ghost use Rattle.std.specs.Borrow.{sem};
    ghost use Rattle.spec_film.specs.Films.{AllowedHead};
    ghost use Rattle.spec_words.specs.declared.command.SettingFault.{SettingFault};
    ghost use Rattle.spec_words.specs.Choices.{early_of};
    ghost use Rattle.picture_planes.specs.Pictures.{planes_of};
    ghost use Rattle.spec_plan.specs.Plan.{group};
    ghost use Rattle.spec_session.specs.Settings.{AreInRange, completed};
    ghost use Rattle.spec_session.specs.Encodings.{encoding_from, start};
    ghost use Rattle.spec_session.specs.Groups.{first_place, full_at, group_steps, place_behind};
    ghost use Rattle.enc_session.specs.declared.ends.OpenEnd.TheVariants as open_ends;
    ghost use Rattle.enc_session.specs.Sessions.{settings_of, workers_of, state_of, place_of, slots_of, HasSlots, IsReady};
    ghost use Rattle.enc_session.specs.Lending.{LendsSlot};
    ghost use Rattle.enc_session.specs.Left.{GroupLeft};

    /// A session for a film with this head. All memory is taken here. `Setting` comes exactly at the first fault of
    /// the settings that need the film.
    pub fn open(alloc: Global, settings: &Settings, head: &FilmHead) -> Result<Session, OpenEnd>
        requires range { AreInRange settings.now }
        requires early { early_of settings.now ≡ None }
        requires head { AllowedHead head.now }
        ensures settings { IfOk result (λ s. completed settings.now head.now ≡ Ok (settings_of s)) }
        ensures workers { IfOk result (λ s. workers_of s ≡ settings.now.workers) }
        ensures state { IfOk result (λ s. state_of s ≡ start (settings_of s)) }
        ensures place { IfOk result (λ s. place_of s ≡ first_place) }
        ensures ready { IfOk result (λ s. IsReady s) }
        ensures slots { IfOk result (λ s. HasSlots head.now (slots_of s)) }
        ensures fault { (fault : SettingFault) → result ≡ Err (open_ends.Setting fault) → completed settings.now head.now ≡ Err fault }
        ensures refused { (fault : SettingFault) → completed settings.now head.now ≡ Err fault → result ≡ Err (open_ends.Setting fault) }
    {
        let level = match completed_level(settings, head) {
            Ok(level) => level,
            Err(fault) => return Err(OpenEnd::Setting(fault)),
        };
        let Ok(engine) = first_engine(alloc, settings, head, level) else {
            return Err(OpenEnd::OutOfMemory);
        };
        let Ok(slots) = blank_slots(alloc, head) else {
            return Err(OpenEnd::OutOfMemory);
        };
        Ok(Session { engine, slots })
    }

    /// Lends the picture of a slot, from 0 to 4, for writing. Its sizes and margins have to stay.
    pub fn slot(&mut self, k: u32) -> &mut Picture
        requires place { k ≤ 4 }
        requires slots { length (slots_of self.old) ≡ 5 }
        ensures* writes_back { sem 𝓛 (LendsSlot self.entry k result) }
        ensures value { slice_get (slots_of self.old) k ≡ Some result.now }
    {
        &mut self.slots[k as usize]
    }

    /// Codes a group whose pictures stand in the slots in display order, in the order of its steps. Of each picture the
    /// access unit is written to the stream, in one call with its filler, and its line to the report; then the pictures
    /// that a decoder shows are written to the reconstruction, in display order, also those before a refused one.
    ///
    /// After an error the session isn't used again.
    pub fn code_group<R, S: Studio, G: Gate + Sync>(
        &mut self,
        rt: &R,
        steps: &[PlanStep],
        studio: &mut S,
        gate: &G,
    ) -> Result<(), GroupEnd>
        requires ready { IsReady self.old }
        requires slots { HasSlots (settings_of self.old).head (slots_of self.old) }
        requires some { 1 ≤ length steps.now }
        requires most { length steps.now ≤ full_at (settings_of self.old) (place_of self.old) }
        requires steps { steps.now ≡ group (place_of self.old).display (length steps.now) (settings_of self.old).idr (place_of self.old).number }
        requires few { (place_of self.old).display + length steps.now ≤ 1000000 }
        ensures group { GroupLeft (settings_of self.old) (state_of self.old) (encoding_from (settings_of self.old) (state_of self.old) (group_steps (settings_of self.old) (place_of self.old) (take (length steps.now) (map planes_of (slots_of self.old))))) (S.seen studio.old) (S.seen studio.new) (state_of self.new) result }
        ensures settings { settings_of self.new ≡ settings_of self.old }
        ensures workers { workers_of self.new ≡ workers_of self.old }
        ensures next { IfOk result (λ _. place_of self.new ≡ place_behind (settings_of self.old) (place_of self.old) (length steps.now)) }
        ensures ready { IfOk result (λ _. IsReady self.new) }
        ensures slots { IfOk result (λ _. HasSlots (settings_of self.old).head (slots_of self.new)) }
    {
        let slots = self.slots.as_mut_slice();
        let (count, end) = code_steps(&mut self.engine, rt, steps, slots, studio, gate);
        if let Some(out) = failed_output(&end) {
            return Err(GroupEnd::Write(out));
        }
        let engine = &self.engine;
        let shown = self.slots.as_slice();
        match show_group(studio, &engine.head, &engine.store, shown, count) {
            Ok(()) => {}
            Err(_) => return Err(GroupEnd::Write(Out::Recon)),
        }
        self.engine.pass(steps);
        end
    }

    /// Pictures, bits with filler, and compared vectors so far.
    pub fn totals(&self) -> (u32, u64, u64)
        ensures { result ≡ ((state_of self.now).ledger.units, (state_of self.now).ledger.bits, (state_of self.now).compared) }
    {
        (
            self.engine.ledger.units(),
            self.engine.ledger.bits(),
            self.engine.compared,
        )
    }

    /// The level that the stream has, which was asked for or is the least that fits.
    pub fn level(&self) -> u8
        ensures { result ≡ (settings_of self.now).level }
    {
        self.engine.level
    }
}
