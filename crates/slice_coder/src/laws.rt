// Slices, coded by the plans of rows, are those of the search.
ghost use Rattle.std.specs.Prelude.{◌≡◌, ◌≤◌, ◌<◌, ◌*◌, ℕ, List, length};
ghost use Rattle.enc_tables.specs.declared.records.MbPlan.{MbPlan};
ghost use Rattle.enc_tables.specs.declared.plans.RowPlan.{RowPlan};
ghost use Rattle.spec_film.specs.Films.{Planes};
ghost use Rattle.spec_headers.specs.declared.SliceHead.{SliceHead};
ghost use Rattle.spec_lists.specs.Lists.{Lists};
ghost use Rattle.spec_slice_payload.specs.Layer.{Format};
ghost use Rattle.spec_coded.specs.Tasks.{task_records};
ghost use Rattle.spec_coded.specs.Coarsest.{coarsest_records};
ghost use Rattle.spec_tasks.specs.Choosing.{task_by, plan_by};
ghost use Rattle.slice_coder.specs.Plans.{ArePlanned, task_of};

/// The records of a slice whose rows are planned are those of a task with the plans of the search; those of the
/// coarsest coding are the same by any plans.
pub fn slices_are_searched()
    ensures plain { (f : Format) (h : SliceHead) (lists : Lists) (source : Planes) (plans : List RowPlan) (a : ArePlanned f h lists source plans) (before : Planes) (row n : ℕ) → 0 < f.across → h.first_mb ≡ row * f.across → n ≤ length plans * f.across
        → task_records (task_of f h lists source plans) before n ≡ task_records (task_by f h lists source (plan_by f h lists source a.range)) before n }
    ensures coarsest { (f : Format) (h : SliceHead) (lists : Lists) (source : Planes) (plans : List RowPlan) (plan : ℕ → MbPlan) (before : Planes) (n : ℕ) → coarsest_records (task_of f h lists source plans) before n ≡ coarsest_records (task_by f h lists source plan) before n }
{}
