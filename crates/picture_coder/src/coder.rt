// A coder of pictures, with all its memory.
ghost use Rattle.std.specs.Prelude.{◌≡◌, ◌≤◌, ◌<◌, ◌+◌, ◌*◌, vec_len, Some, []};
ghost use Rattle.std.specs.Borrow.{sem};
ghost use Rattle.picture_plans.specs.Planned.{AreRows};

use crate::coding::Coding;
use crate::counting::count_units;
use crate::job::Job;
use crate::memory::{blank_plans, blank_records, blank_reference};
use crate::picture::{clear, code_picture};
use crate::planning::fill_sums;
use bit_strings::{BitBuf, Full};
use block_sums::SumTable;
use enc_edge::Gate;
use enc_tables::{MbRecord, RowPlan};
use picture_plans::plan_picture;
use ref_lists::Reference;
use std::alloc::{AllocError as OutOfMemory, Global};

/// Plans and codes pictures of one size.
///
/// All memory is taken when it is made: the plans of the rows, the sums of the source, a record for each macroblock, the
/// coded picture, and one buffer for the payload of a slice. Slices are coded one after another, so one buffer serves.
#[derive(Drop)]
pub struct PictureCoder {
    // Macroblocks in a row, and rows.
    across: u32,
    down: u32,
    slices: u32,
    workers: u32,
    plans: Vec<RowPlan>,
    // of the luma plane of the source
    sums: SumTable,
    records: Vec<MbRecord>,
    reference: Reference,
    // Empty between calls, with room for so many bits. It is None while a picture is coded.
    payload: Option<BitBuf>,
    room: u64,
    ghost across_fits: { (1 ≤ across) × (across ≤ 256) },
    ghost down_fits: { (1 ≤ down) × (down ≤ 144) },
    ghost slices_fit: { (1 ≤ slices) × (slices ≤ down) },
    ghost plan_count: { vec_len plans ≡ down },
    ghost rows: { AreRows across plans.items },
    ghost sums_fit: { (sums.width ≡ 16 * across) × (sums.height ≡ 16 * down) × (sums.pad ≡ 40) },
    ghost record_count: { vec_len records ≡ down * across },
    ghost rests: { payload ≡ Some (record { text = []; room = room; made = room }) },
    ghost room_fits: { 128 * (down * across) + 1024 ≤ room },
}

impl PictureCoder {
    ghost use Rattle.std.specs.Prelude.{◌≡◌, ◌≤◌, ◌<◌, ◌+◌, ◌*◌, ◌/◌, ◌%◌, ◌^◌, ◌==◌, ℕ, true, false, None, length, max, IfOk, OnOk, IsTrue};
    ghost use Rattle.bit_strings.specs.BitText.{Appends};
    ghost use Rattle.picture_coder.specs.Units.{bits_for};
    ghost use Rattle.picture_coder.specs.Kept.{IsKept};
    ghost use Rattle.picture_coder.specs.Pictures.{picture_at, units_to};
    ghost use Rattle.picture_coder.specs.Jobs.{IsMoved};
    ghost use Rattle.picture_coder.specs.Coders.{IsMadeFor, HasOwnSizes, HasPlans, IsFor, OnlyPlansDiffer, OnlyPictureDiffers, shape_for, plain_for, coarsest_for, compared_for, kept_for, mbs_across, mbs_down, payload_room, lent_reference, coding_for};
    ghost use Rattle.picture_coder.specs.Lending.{LendsReference};

    /// A coder of pictures of this size, each of so many slices, planned by at most so many threads. Width and height
    /// are in luma samples, and are rounded up to multiples of 16. A payload has room for `cpb` bits, or for 128 bits a
    /// macroblock and 1024 more where that is greater.
    pub fn new(
        alloc: Global,
        width: u32,
        height: u32,
        slices: u32,
        workers: u32,
        cpb: u32,
    ) -> Result<PictureCoder, OutOfMemory>
        requires width { (1 ≤ width) × (width ≤ 4096) }
        requires height { (1 ≤ height) × (height ≤ 2304) }
        requires some { 1 ≤ slices }
        requires few { slices ≤ (height + 15) / 16 }
        ensures made { IfOk result (λ c. IsMadeFor c width height slices workers) }
        ensures sizes { IfOk result (λ c. HasOwnSizes c) }
        ensures room { IfOk result (λ c. max cpb (128 * (mbs_down c * mbs_across c) + 1024) ≤ payload_room c) }
    {
        let across = (width + 15) / 16;
        let down = (height + 15) / 16;
        let room = cpb.max(128 * (down * across) + 1024);
        let bytes = room / 8 + 1;
        let plans = blank_plans(alloc, across, down)?;
        let sums = SumTable::new(alloc, 16 * across, 16 * down, 40)?;
        let records = blank_records(alloc, down * across)?;
        let reference = blank_reference(alloc, across, down)?;
        let payload = BitBuf::with_room(alloc, bytes)?;
        Ok(PictureCoder {
            across,
            down,
            slices,
            workers,
            plans,
            sums,
            records,
            reference,
            payload: Some(payload),
            room: 8 * u64::from(bytes),
        })
    }

    /// How many bits the payload of a slice has at most, and so how many bits `out` may have left when a picture is
    /// coded.
    pub fn room(&self) -> u64
        ensures { result ≡ payload_room self.now }
    {
        self.room
    }

    /// Lends the picture that was coded last, as a decoder keeps it, not cropped. Before the first `code` and after
    /// `Full` what it holds isn't told.
    ///
    /// The caller may write to it as it likes: fill its margins, change samples, or put another reference in its place.
    /// What it leaves there stays until the next `code`. `plan` doesn't read it, and `code` makes it anew, so nothing
    /// that is written through it changes what is coded. The caller may not leave a reference of other sizes or margins
    /// there for a later `code`.
    pub fn decoded(&mut self) -> &mut Reference
        ensures* writes_back { sem 𝓛 (LendsReference self.entry result) }
        ensures value { result.now ≡ lent_reference self.old }
    {
        &mut self.reference
    }

    /// Plans all rows of the job's source, each as a row of its slice, and answers with how many vectors were compared.
    /// The gate is asked before each row.
    pub fn plan<R, G: Gate + Sync>(&mut self, _rt: &R, job: &Job<'_>, gate: &G) -> u64
        requires job { IsFor self.old job.now }
        requires moved { IsMoved job.now }
        ensures planned { HasPlans self.new job.now }
        ensures compared { result ≡ compared_for self.old job.now }
        ensures small { result ≤ 2 ^ 34 }
        ensures others { OnlyPlansDiffer self.old self.new }
        ensures asked { (r : ℕ) → r < mbs_down self.old → IsTrue (G.let_in gate.now r) }
    {
        fill_sums(&mut self.sums, &job.source.y);
        plan_picture(
            job.source,
            &self.sums,
            job.lists,
            job.step.kind,
            self.slices,
            job.range,
            job.t8x8,
            self.plans.as_mut_slice(),
            gate,
        )
    }

    // Codes the picture by the written choice, or as the coarsest one.
    fn code_by(
        &mut self,
        job: &Job<'_>,
        qp: u8,
        coarsest: bool,
        out: &mut BitBuf,
    ) -> Result<(), Full>
        requires sizes { HasOwnSizes self.old }
        requires job { IsFor self.old job.now }
        requires planned { coarsest ≡ false → HasPlans self.old job.now }
        requires qp { qp ≤ 51 }
        requires greatest { coarsest ≡ true → qp ≡ 51 }
        requires room { out.old.room ≤ length out.old.text + payload_room self.old }
        requires whole { length out.old.text % 8 ≡ 0 }
        ensures units { Appends out.old out.new (units_to (coding_for self.old qp coarsest) job.now (length out.old.text == 0) self.old.slices) result }
        ensures decoded { OnOk result (IsKept (lent_reference self.new) (picture_at (coding_for self.old qp coarsest) job.now)) }
        ensures sizes { HasOwnSizes self.new }
        ensures others { OnlyPictureDiffers self.old self.new }
    {
        let coding = Coding {
            across: self.across,
            down: self.down,
            slices: self.slices,
            qp,
            coarsest,
        };
        let Some(payload) = self.payload.take() else {
            unreachable!();
        };
        let (done, payload) = code_picture(
            &coding,
            job,
            &self.plans,
            &mut self.reference,
            self.records.as_mut_slice(),
            payload,
            out,
        );
        self.payload = Some(payload);
        done
    }

    /// Codes the picture by the plans that were made of it, with this quantisation parameter, and appends the units of
    /// its slices: the first one has a start code of four bytes where `out` was empty. The reference that `decoded`
    /// lends has the coder's size and margins when it is called, and is then what a decoder keeps of the picture.
    ///
    /// `Full` comes exactly where the units don't fit the room of `out`, which is then as before. The plans stay in any
    /// case, so that the picture may be coded again with another parameter.
    pub fn code<R>(&mut self, _rt: &R, job: &Job<'_>, qp: u8, out: &mut BitBuf) -> Result<(), Full>
        requires sizes { HasOwnSizes self.old }
        requires job { IsFor self.old job.now }
        requires moved { IsMoved job.now }
        requires planned { HasPlans self.old job.now }
        requires qp { qp ≤ 51 }
        requires room { out.old.room ≤ length out.old.text + payload_room self.old }
        requires whole { length out.old.text % 8 ≡ 0 }
        ensures units { Appends out.old out.new (bits_for (shape_for self.old job.now) (length out.old.text == 0) job.now.step (plain_for self.old job.now qp)) result }
        ensures decoded { OnOk result (IsKept (lent_reference self.new) (kept_for self.old job.now (plain_for self.old job.now qp))) }
        ensures sizes { HasOwnSizes self.new }
        ensures others { OnlyPictureDiffers self.old self.new }
    {
        self.code_by(job, qp, false, out)
    }

    /// Codes the picture as coarsely as can be, with the greatest quantisation parameter, no level and no command, and
    /// appends the units of its slices, as `code` does. Plans aren't read, and stay.
    pub fn coarsest<R>(&mut self, _rt: &R, job: &Job<'_>, out: &mut BitBuf) -> Result<(), Full>
        requires sizes { HasOwnSizes self.old }
        requires job { IsFor self.old job.now }
        requires plain { job.now.moved ≡ None }
        requires room { out.old.room ≤ length out.old.text + payload_room self.old }
        requires whole { length out.old.text % 8 ≡ 0 }
        ensures units { Appends out.old out.new (bits_for (shape_for self.old job.now) (length out.old.text == 0) job.now.step (coarsest_for self.old job.now)) result }
        ensures decoded { OnOk result (IsKept (lent_reference self.new) (kept_for self.old job.now (coarsest_for self.old job.now))) }
        ensures sizes { HasOwnSizes self.new }
        ensures others { OnlyPictureDiffers self.old self.new }
    {
        self.code_by(job, 51, true, out)
    }

    /// How many bits the units of the coarsest coding have, with start codes of three bytes, whatever room there is.
    /// Plans stay; what `decoded` lends isn't told.
    pub fn coarsest_bits<R>(&mut self, _rt: &R, job: &Job<'_>) -> u64
        requires sizes { HasOwnSizes self.old }
        requires job { IsFor self.old job.now }
        requires plain { job.now.moved ≡ None }
        ensures bits { result ≡ length (bits_for (shape_for self.old job.now) false job.now.step (coarsest_for self.old job.now)) }
        ensures small { result ≤ 2 ^ 32 }
        ensures sizes { HasOwnSizes self.new }
        ensures others { OnlyPictureDiffers self.old self.new }
    {
        let coding = Coding {
            across: self.across,
            down: self.down,
            slices: self.slices,
            qp: 51,
            coarsest: true,
        };
        let Some(payload) = self.payload.take() else {
            unreachable!();
        };
        clear(&mut self.reference.picture);
        let (bits, payload) = count_units(
            &coding,
            job,
            &self.plans,
            &mut self.reference.picture,
            self.records.as_mut_slice(),
            payload,
        );
        self.payload = Some(payload);
        bits
    }
}
