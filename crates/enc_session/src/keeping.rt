// What is kept of a picture once its access unit is written.
ghost use Rattle.std.specs.Prelude.{◌≡◌, ◌≢◌, ◌≤◌, ◌<◌, ◌+◌, ◌*◌, ◌^◌, true, false, if◌then◌else◌};
ghost use Rattle.buffer_control.specs.Seen.{rate_of as rate_in, spent_of};
ghost use Rattle.enc_tables.specs.declared.SliceKind.TheVariants.{B};
ghost use Rattle.picture_coder.specs.Coders.{HasOwnSizes, lent_reference};
ghost use Rattle.picture_coder.specs.Lending.{with_reference};
ghost use Rattle.picture_coder.specs.Sizes.{HasSizes};
ghost use Rattle.picture_planes.specs.Pictures.{planes_of};
ghost use Rattle.ref_lists.specs.Held.{IsMade};
ghost use Rattle.ref_lists.specs.Stored.{width_of, height_of};
ghost use Rattle.spec_buffer.specs.Ledger.{available, filler_bytes, spent};
ghost use Rattle.enc_session.specs.Keeping.{IsNext, KeptLeft, Taken};
ghost use Rattle.enc_session.specs.Ready.{units_in};

use crate::engine::Engine;
use crate::units::Made;
use enc_tables::{PlanStep, SliceKind};
use picture_coder::PictureCoder;
use picture_planes::Picture;
use ref_lists::RefStore;
use std::mem::swap;

// Puts the coded picture into the slot; the coder has the slot's picture for the next one.
fn give_back(coder: &mut PictureCoder, slot: &mut Picture)
    ensures slot { slot.new ≡ (lent_reference coder.old).picture }
    ensures coder { coder.new ≡ with_reference coder.old (record (lent_reference coder.old) { picture = slot.old }) }
{
    let decoded = coder.decoded();
    swap(&mut decoded.picture, slot);
}

// Keeps a coded picture: in the store, where later pictures refer to it, and else in the slot, until it is shown.
fn keep_picture(store: &mut RefStore, coder: &mut PictureCoder, slot: &mut Picture, kind: SliceKind)
    requires made { IsMade (width_of store.old) (height_of store.old) (lent_reference coder.old) }
    requires next { kind ≢ B → IsNext store.old (lent_reference coder.old) }
    ensures { KeptLeft kind store.old store.new coder.old coder.new slot.old slot.new }
{
    match kind {
        SliceKind::I | SliceKind::P => store.slide(coder.decoded()),
        SliceKind::B => give_back(coder, slot),
    }
}

// Counts an IDR picture, before which there were so many units.
fn count_idr(idrs: &mut u32, last_idr: &mut u32, units: u32, idr: bool)
    requires few { idrs.old < 4000000 }
    ensures idrs { idrs.new ≡ (if idr then idrs.old + 1 else idrs.old) }
    ensures last_idr { last_idr.new ≡ (if idr then units else last_idr.old) }
{
    if idr {
        *idrs += 1;
        *last_idr = units;
    }
}

impl Engine {
    /// Takes over what was made of a step's picture, whose access unit is written: what was spent, counted, and the
    /// picture itself.
    pub(crate) fn take_over(&mut self, step: &PlanStep, slot: &mut Picture, made: &Made)
        requires bits { made.now.bits ≤ available (rate_in self.old.ledger) (spent_of self.old.ledger) }
        requires filler { made.now.filler ≡ filler_bytes (rate_in self.old.ledger) (spent_of self.old.ledger) made.now.bits }
        requires few { units_in self.old < 2000000 }
        requires idrs { self.old.idrs ≤ units_in self.old }
        requires compared { self.old.compared ≤ 2 ^ 60 }
        requires small { made.now.compared ≤ 2 ^ 34 }
        requires kept { IsMade (width_of self.old.store) (height_of self.old.store) (lent_reference self.old.coder) }
        requires next { step.now.kind ≢ B → IsNext self.old.store (lent_reference self.old.coder) }
        ensures taken { Taken step.now made.now self.old self.new }
        ensures kept { KeptLeft step.now.kind self.old.store self.new.store self.old.coder self.new.coder slot.old slot.new }
    {
        let units = self.ledger.units();
        self.ledger.spend(made.bits, made.filler);
        self.compared += made.compared;
        count_idr(&mut self.idrs, &mut self.last_idr, units, step.idr);
        keep_picture(&mut self.store, &mut self.coder, slot, step.kind);
    }
}
