// One step of a group.
ghost use Rattle.std.specs.Prelude.{◌≡◌, ◌≤◌, ◌<◌, ◌+◌, ◌*◌, false, true, IfOk, if◌then◌else◌};
ghost use Rattle.enc_tables.specs.declared.SliceKind.TheVariants.{B};
ghost use Rattle.picture_coder.specs.Sizes.{HasSizes};
ghost use Rattle.picture_planes.specs.Pictures.{planes_of};
ghost use Rattle.ref_lists.specs.Stored.{SameStore};
ghost use Rattle.spec_film_coder.specs.Sound.{StepFits};
ghost use Rattle.spec_session.specs.Encodings.{reorders};
ghost use Rattle.enc_session.specs.Asking.{MayFollow};
ghost use Rattle.enc_session.specs.Ready.{Holds, settings_in, state_in, units_in};
ghost use Rattle.enc_session.specs.Stepping.{SameEngine, StepLeft, line_by};

use crate::GroupEnd;
use crate::engine::Engine;
use crate::output::write_picture;
use crate::units::Made;
use enc_edge::{Gate, Studio};
use enc_tables::PlanStep;
use picture_planes::Picture;
use report_lines::ReportPicture;

// What the report says of a picture before which there were so many.
fn line_of(coded: u32, step: &PlanStep, made: &Made) -> ReportPicture
    ensures { result ≡ line_by coded step.now made.now }
{
    ReportPicture {
        coded,
        display: step.display,
        kind: step.kind,
        qp: made.qp,
        coarsest: made.coarsest,
        bits: made.bits,
        filler: 8 * u64::from(made.filler),
        have: made.have,
    }
}

impl Engine {
    /// Codes the picture of a step, which stands in the slot, and writes its access unit and its line. Of a B picture
    /// the slot then has what a decoder shows of it.
    pub(crate) fn code_picture<R, S: Studio, G: Gate + Sync>(
        &mut self,
        rt: &R,
        step: PlanStep,
        slot: &mut Picture,
        studio: &mut S,
        gate: &G,
    ) -> Result<(), GroupEnd>
        requires holds { Holds self.old }
        requires step { StepFits step.idr step.kind step }
        requires follows { step.idr ≡ false → MayFollow self.old.store step }
        requires few { units_in self.old < 1000000 }
        requires display { step.display < 1000000 }
        requires late { units_in self.old ≤ step.display + (if reorders (settings_in self.old) then 1 else 0) }
        requires slot { HasSizes self.old.head.width self.old.head.height slot.old }
        ensures left { StepLeft (settings_in self.old) (state_in self.old) step (planes_of slot.old) slot.new (S.seen studio.old) (S.seen studio.new) (state_in self.new) result }
        ensures holds { IfOk result (λ _. Holds self.new) }
        ensures slot { HasSizes self.old.head.width self.old.head.height slot.new }
        ensures store { step.kind ≡ B → step.idr ≡ false → self.new.store ≡ self.old.store }
        ensures size { SameStore self.old.store self.new.store }
        ensures same { SameEngine self.old self.new }
    {
        let made = match self.make_unit(rt, step, slot, gate) {
            Ok(made) => made,
            Err(end) => return Err(end),
        };
        let line = line_of(self.ledger.units(), &step, &made);
        match write_picture(studio, self.unit.bytes(), &line) {
            Ok(()) => {}
            Err(out) => return Err(GroupEnd::Write(out)),
        }
        self.take_over(&step, slot, &made);
        Ok(())
    }
}
