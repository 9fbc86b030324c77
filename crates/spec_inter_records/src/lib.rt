//! Laws on the macroblocks that the encoder codes in I, P and B slices: their records are records of the syntax, with
//! the motion that a decoder derives, and their vectors and vector differences stay small.
#![tactic(auto)]

ghost use Rattle.std.specs.Prelude.{◌≡◌, ℕ, ◌+◌, ◌<◌, true, List, [], length, get_or, ℤ};
ghost use Rattle.enc_tables.specs.declared.records.MbKind.{MbKind};
ghost use Rattle.enc_tables.specs.declared.records.MbPlan.{MbPlan};
ghost use Rattle.enc_tables.specs.declared.records.MbRecord.{MbRecord};
ghost use Rattle.enc_tables.specs.declared.records.Motion.{Motion};
ghost use Rattle.enc_tables.specs.declared.records.Vector.{Vector};
ghost use Rattle.enc_tables.specs.declared.records.SliceKind.{SliceKind};
ghost use Rattle.spec_headers.specs.declared.SliceHead.{SliceHead};
ghost use Rattle.enc_tables.specs.Kinds.{has_motion};
ghost use Rattle.spec_film.specs.Films.{Planes};
ghost use Rattle.spec_partitions.specs.Near.{View};
ghost use Rattle.enc_tables.specs.Records.{no_record};
ghost use Rattle.spec_partitions.specs.Partitions.{part_count};
ghost use Rattle.spec_partitions.specs.Derived.{skip_motion, direct_motion};
ghost use Rattle.spec_partitions.specs.Records.{is_in};
ghost use Rattle.spec_partitions.specs.Small.{Small, AllSmall, ViewSmall};
ghost use Rattle.spec_slice_payload.specs.Layer.{Format, facts_of};
ghost use Rattle.spec_slice_payload.specs.Slices.{AreRecords};
ghost use Rattle.spec_reconstruction.specs.declared.Site.{Site};
ghost use Rattle.spec_reconstruction.specs.Inter.{Sources};
ghost use Rattle.spec_coded.specs.Planned.{moving, planned, coded_difference};
ghost use Rattle.spec_coded.specs.Levels.{levelled, predicted_planes, is_blank};
ghost use Rattle.spec_coded.specs.Tasks.{Task, task_records};
ghost use Rattle.spec_coded.specs.Coarsest.{coarsest_records};
ghost use Rattle.spec_record_laws.specs.Coded.{PlanesFit, Stands};
ghost use Rattle.spec_inter_records.specs.Fits.{SourcesFit, PartsChosen, TaskFits, Belongs};

/// What is predicted from pictures of eight bits has eight bits, whatever the motion is (ITU-T H.264, clause 8.4.2).
pub fn predictions_fit()
    ensures { (wide : ℕ) (s : Sources) (site : Site) (mb : MbRecord) → SourcesFit s → PlanesFit (predicted_planes wide s site mb) }
{}

/// The record of an inter macroblock, with the levels of any source over any prediction, is one that the syntax can
/// give, and has the motion that a decoder derives: of planned partitions; of skipped macroblocks where they leave no
/// level; and of direct ones.
pub fn inter_records_belong()
    ensures partitions { (view : View) (wide : ℕ) (site : Site) (kind : MbKind) (plan : MbPlan) (source prediction : Planes) → Stands view.near site → has_motion kind ≡ true → is_in view.near.kind kind ≡ true → PlanesFit source → PlanesFit prediction
        → ViewSmall 131 view → PartsChosen view.near.kind view.near.refs0 view.near.refs1 131 plan → Belongs view (levelled wide site view.near.t8x8 source prediction (planned view plan kind site.qp)) }
    ensures p_skip { (view : View) (wide : ℕ) (site : Site) (source prediction : Planes) → Stands view.near site → view.near.kind ≡ SliceKind.P → PlanesFit source → PlanesFit prediction
        → is_blank (levelled wide site view.near.t8x8 source prediction (moving MbKind.PSkip site.qp (skip_motion view))) ≡ true → Belongs view (levelled wide site view.near.t8x8 source prediction (moving MbKind.PSkip site.qp (skip_motion view))) }
    ensures b_skip { (view : View) (wide : ℕ) (site : Site) (source prediction : Planes) → Stands view.near site → view.near.kind ≡ SliceKind.B → PlanesFit source → PlanesFit prediction
        → is_blank (levelled wide site view.near.t8x8 source prediction (moving MbKind.BDirect site.qp (direct_motion view))) ≡ true → Belongs view (record (levelled wide site view.near.t8x8 source prediction (moving MbKind.BDirect site.qp (direct_motion view))) { kind = MbKind.BSkip }) }
    ensures direct { (view : View) (wide : ℕ) (site : Site) (source prediction : Planes) → Stands view.near site → view.near.kind ≡ SliceKind.B → PlanesFit source → PlanesFit prediction
        → Belongs view (levelled wide site view.near.t8x8 source prediction (moving MbKind.BDirect site.qp (direct_motion view))) }
{}

/// Where a partition's vector and those of the blocks around are at most so long, its written difference is at most
/// twice as long.
pub fn differences_stay_small()
    ensures first { (most : ℕ) (view : View) (motion : List Motion) (r : ℕ → ℤ) (v : ℕ → Vector) → ViewSmall most view → AllSmall most motion → (shape part : ℕ) → shape < 4 → part < part_count shape → Small most (v part) → Small (most + most) (coded_difference view shape motion 0 r v part) }
    ensures second { (most : ℕ) (view : View) (motion : List Motion) (r : ℕ → ℤ) (v : ℕ → Vector) → ViewSmall most view → AllSmall most motion → (shape part : ℕ) → shape < 4 → part < part_count shape → Small most (v part) → Small (most + most) (coded_difference view shape motion 1 r v part) }
{}

/// The records of a coded slice of any type are records that the syntax can give, each behind those before it, with
/// modes whose samples are available and the motion that a decoder derives; and no vector is longer than 131 quarter
/// samples, also where it isn't written.
pub fn coded_slices_are_records()
    ensures records { (f : Format) (h : SliceHead) (t : Task) (p : Planes) (n : ℕ) → t.facts ≡ facts_of f h → TaskFits t → PlanesFit p → AreRecords f t.colocated h [] (task_records t p n) }
    ensures vectors { (f : Format) (h : SliceHead) (t : Task) (p : Planes) (n : ℕ) → t.facts ≡ facts_of f h → TaskFits t → PlanesFit p → (i : ℕ) → i < length (task_records t p n) → AllSmall 131 (get_or (task_records t p n) i no_record).motion }
{}

/// So are the coarsest records of a slice of the greatest QP.
pub fn coarsest_slices_are_records()
    ensures { (f : Format) (h : SliceHead) (t : Task) (p : Planes) (n : ℕ) → t.facts ≡ facts_of f h → 0 < f.across → h.qp ≡ 51 → PlanesFit p → AreRecords f t.colocated h [] (coarsest_records t p n) }
{}
