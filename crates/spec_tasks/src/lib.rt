//! What slices of P and B pictures are coded from, as definitions: how many entries lists have, which reference is
//! moved to the front, and the plans and facts that a slice's records are made from; with the law that these fit, so
//! that the slice's records are records of the syntax.
#![tactic(auto)]

ghost use Rattle.std.specs.Prelude.{◌≡◌, ◌<◌, ◌^◌, ℕ, List, []};
ghost use Rattle.enc_tables.specs.declared.records.MbPlan.{MbPlan};
ghost use Rattle.enc_tables.specs.declared.records.MbRecord.{MbRecord};
ghost use Rattle.enc_tables.specs.Choice.{part_cost};
ghost use Rattle.spec_headers.specs.declared.SliceHead.{SliceHead};
ghost use Rattle.spec_film.specs.Films.{Planes};
ghost use Rattle.spec_lists.specs.Lists.{Lists};
ghost use Rattle.spec_lists.specs.Colocated.{colocated_at};
ghost use Rattle.spec_partitions.specs.Near.{view_in};
ghost use Rattle.spec_slice_payload.specs.Layer.{Format, view_of};
ghost use Rattle.spec_slice_payload.specs.Slices.{AreRecords};
ghost use Rattle.spec_coded.specs.Tasks.{task_records};
ghost use Rattle.spec_record_laws.specs.Coded.{PlanesFit};
ghost use Rattle.spec_inter_records.specs.Fits.{TaskFits};
ghost use Rattle.spec_tasks.specs.Choosing.{task_by, plan_by};
ghost use Rattle.spec_tasks.specs.Given.{IsGiven};

/// A slice is coded with the very neighbours and the very co-located motion that it is read with.
pub fn slices_are_coded_as_read()
    ensures { (f : Format) (h : SliceHead) (lists : Lists) (source : Planes) (plan : ℕ → MbPlan) (before : List MbRecord) → (let t = task_by f h lists source plan in view_in t.facts t.colocated before) ≡ view_of f (colocated_at lists) h before }
{}

/// Where the lists' pictures, the source and the header fit, so do the plans that are searched for a slice; and the
/// records that are made by them are records that the syntax can give, each behind those before it.
pub fn planned_slices_are_records()
    ensures fits { (f : Format) (h : SliceHead) (lists : Lists) (source : Planes) (range : ℕ) → IsGiven f h lists source range → TaskFits (task_by f h lists source (plan_by f h lists source range)) }
    ensures records { (f : Format) (h : SliceHead) (lists : Lists) (source : Planes) (range : ℕ) (p : Planes) (n : ℕ) → IsGiven f h lists source range → PlanesFit p
        → AreRecords f (colocated_at lists) h [] (task_records (task_by f h lists source (plan_by f h lists source range)) p n) }
{}

/// No cost of a planned partition reaches 2 ^ 24, so that sums of costs have room.
pub fn planned_costs_are_small()
    ensures { (f : Format) (h : SliceHead) (lists : Lists) (source : Planes) (range : ℕ) (address : ℕ) (k : ℕ) → IsGiven f h lists source range → part_cost (plan_by f h lists source range address) k < 2 ^ 24 }
{}
