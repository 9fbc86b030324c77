// A macroblock, coded by its plan.
ghost use Rattle.std.specs.Prelude.{◌≡◌, ◌≤◌, ◌<◌, ◌*◌, ◌/◌, ◌%◌, ◌++◌, ℕ, List, IfSome, None, false, length, replicate, get_or, vec_len};
ghost use Rattle.std.specs.List.{All};
ghost use Rattle.enc_tables.specs.declared.records.MbPlan.{MbPlan};
ghost use Rattle.enc_tables.specs.declared.records.MbRecord.{MbRecord};
ghost use Rattle.enc_tables.specs.declared.plans.RowPlan.{RowPlan};
ghost use Rattle.enc_tables.specs.Choice.{SmallCosts};
ghost use Rattle.enc_tables.specs.Kinds.{is_intra};
ghost use Rattle.picture_planes.specs.Pictures.{SameShapes, planes_of};
ghost use Rattle.spec_headers.specs.declared.SliceHead.{SliceHead};
ghost use Rattle.spec_lists.specs.Colocated.{colocated_at};
ghost use Rattle.spec_partitions.specs.InRange.{HasEntries};
ghost use Rattle.spec_partitions.specs.Near.{View};
ghost use Rattle.spec_reconstruction.specs.Records.{intra_built, macroblock_built, site_of};
ghost use Rattle.spec_reconstruction.specs.Slices.{coded_record, is_8x8};
ghost use Rattle.spec_coded.specs.Tasks.{by_choice, in_slice, record_at};
ghost use Rattle.spec_record_laws.specs.Coded.{ModesFit};
ghost use Rattle.spec_inter_records.specs.Fits.{InterPlanned};
ghost use Rattle.ref_lists.specs.Named.{named};
ghost use Rattle.residual_coder.specs.Inside.{IsSource};
ghost use Rattle.residual_coder.specs.Stripes.{planes_in};
ghost use Rattle.intra_coder.specs.Reach.{Stands};
ghost use Rattle.inter_coder.specs.Given.{wide_of, tall_of, count0, count1, sources_in, IsBeside};
ghost use Rattle.inter_coder.specs.Made.{Taken};
ghost use Rattle.slice_coder.specs.Given.{task_in, CanStand, PlannedFor, taken_or};

use crate::colocated::colocated_at;
use crate::place::Place;
use enc_tables::{MbKind, MbPlan, MbRecord, RowPlan, SliceKind, choose};
use inter_coder::{Beside, Pictures, code_b_direct, code_p_skip, code_planned};
use intra_coder::{code_intra4, code_intra8, code_intra16};
use picture_planes::{Picture, Stripe};
use spec_reconstruction::Site;

fn is_8x8(kind: MbKind) -> bool
    ensures { result ≡ is_8x8 kind }
{
    matches!(kind, MbKind::Intra8)
}

// The modes of Intra 8x8, as a record has them.
fn first_modes(modes: &[u8; 4]) -> [u8; 16]
    ensures { result ≡ modes.now ++ replicate 12 0 }
{
    let mut all = [0; 16];
    all[..4].copy_from_slice(modes);
    all
}

// An intra macroblock, with the modes of its plan.
fn code_by_plan(
    stripe: &mut Stripe<'_>,
    source: &Picture,
    site: &Site,
    kind: MbKind,
    plan: &MbPlan,
) -> MbRecord
    requires in_range { site.now.qp ≤ 51 }
    requires stands { Stands site.now (16 * stripe.old.first) stripe.old.picture.now.y }
    requires source { IsSource 16 site.now.y stripe.old.picture.now.y source.now.y }
    requires modes { ModesFit plan.now }
    ensures same_reference { stripe.new.picture.ghost_name ≡ stripe.old.picture.ghost_name }
    ensures begins { stripe.new.first ≡ stripe.old.first }
    ensures shapes { SameShapes stripe.old.picture.now stripe.new.picture.now }
    ensures record { (across : ℕ) → stripe.old.picture.now.y.width ≡ 16 * across → result ≡ coded_record across site.now kind plan.now (planes_of source.now) (planes_in stripe.old) }
    ensures planes { planes_in stripe.new ≡ intra_built stripe.old.picture.now.y.width site.now result (planes_in stripe.old) }
{
    if kind.is_16x16() {
        return code_intra16(stripe, source, site, plan.mode16, plan.chroma_mode);
    }
    if is_8x8(kind) {
        let modes = first_modes(&plan.modes8);
        return code_intra8(stripe, source, site, &modes, plan.chroma_mode);
    }
    code_intra4(stripe, source, site, &plan.modes4, plan.chroma_mode)
}

/// The plan of macroblock `n` of rows with `across` macroblocks each.
pub fn plan_of<'a>(plans: &'a [RowPlan], across: u32, n: u32) -> &'a MbPlan
    requires across { 0 < across }
    requires rows { n / across < length plans.now }
    requires full { All (λ p. vec_len p.mbs ≡ across) plans.now }
    ensures { (row : RowPlan) (mb : MbPlan) → result.now ≡ get_or (get_or plans.now (n / across) row).mbs.items (n % across) mb }
{
    &plans[(n / across) as usize].mbs[(n % across) as usize]
}

// A macroblock of the kind of least cost.
fn code_chosen(
    stripe: &mut Stripe<'_>,
    pictures: &Pictures<'_>,
    place: &Place,
    site: &Site,
    beside: &Beside<'_>,
    kind: MbKind,
    plan: &MbPlan,
) -> MbRecord
    requires there { CanStand site.now pictures.now stripe.old beside.now }
    requires across { wide_of pictures.now ≡ 16 * place.now.across }
    requires modes { ModesFit plan.now }
    requires inter { is_intra kind ≡ false → PlannedFor (count0 pictures.now) (count1 pictures.now) kind plan.now }
    ensures same_reference { stripe.new.picture.ghost_name ≡ stripe.old.picture.ghost_name }
    ensures begins { stripe.new.first ≡ stripe.old.first }
    ensures shapes { SameShapes stripe.old.picture.now stripe.new.picture.now }
    ensures record { (h : SliceHead) (plans : List RowPlan) (view : View) → IsBeside view beside.now → result ≡ by_choice (task_in place.now h pictures.now plans) site.now view plan.now kind (planes_in stripe.old) }
    ensures qp { result.qp ≡ site.now.qp }
    ensures planes { (first address : ℕ) → site.now ≡ site_of place.now.across first address site.now.qp → planes_in stripe.new ≡ macroblock_built place.now.across (sources_in pictures.now) first address result (planes_in stripe.old) }
{
    if kind.is_intra() {
        return code_by_plan(stripe, pictures.source, site, kind, plan);
    }
    code_planned(stripe, pictures, site, place.t8x8, beside, kind, plan)
}

// A macroblock that is skipped or direct, where its slice may have such and its motion serves; else nothing is changed.
fn code_moving(
    stripe: &mut Stripe<'_>,
    pictures: &Pictures<'_>,
    kind: SliceKind,
    place: &Place,
    site: &Site,
    beside: &Beside<'_>,
    address: u32,
    cost: u32,
) -> Option<MbRecord>
    requires there { CanStand site.now pictures.now stripe.old beside.now }
    requires across { wide_of pictures.now ≡ 16 * place.now.across }
    requires entries { HasEntries kind (count0 pictures.now) (count1 pictures.now) }
    requires address { address < wide_of pictures.now / 16 * (tall_of pictures.now / 16) }
    ensures same_reference { stripe.new.picture.ghost_name ≡ stripe.old.picture.ghost_name }
    ensures begins { stripe.new.first ≡ stripe.old.first }
    ensures shapes { SameShapes stripe.old.picture.now stripe.new.picture.now }
    ensures record { (h : SliceHead) (plans : List RowPlan) (view : View) (chosen : MbRecord) → IsBeside view beside.now → view.colocated ≡ colocated_at (named pictures.now.lists.now) address → in_slice kind (task_in place.now h pictures.now plans) site.now view cost chosen ≡ taken_or chosen result }
    ensures qp { IfSome result (λ mb. mb.qp ≡ site.now.qp) }
    ensures unchanged { result ≡ None → planes_in stripe.new ≡ planes_in stripe.old }
    ensures planes { (first number : ℕ) → site.now ≡ site_of place.now.across first number site.now.qp → Taken (macroblock_built place.now.across (sources_in pictures.now) first number) (planes_in stripe.old) (planes_in stripe.new) result }
{
    match kind {
        SliceKind::I => None,
        SliceKind::P => code_p_skip(stripe, pictures, site, place.t8x8, beside),
        SliceKind::B => {
            let colocated = colocated_at(pictures, address);
            code_b_direct(stripe, pictures, site, place.t8x8, beside, &colocated, cost)
        }
    }
}

/// Codes the macroblock at an address of a slice of a kind by the written choice, and builds it in the stripe as a
/// decoder does of its record.
pub fn code_plain(
    stripe: &mut Stripe<'_>,
    pictures: &Pictures<'_>,
    kind: SliceKind,
    place: &Place,
    site: &Site,
    beside: &Beside<'_>,
    address: u32,
    plan: &MbPlan,
) -> MbRecord
    requires there { CanStand site.now pictures.now stripe.old beside.now }
    requires across { wide_of pictures.now ≡ 16 * place.now.across }
    requires entries { HasEntries kind (count0 pictures.now) (count1 pictures.now) }
    requires address { address < wide_of pictures.now / 16 * (tall_of pictures.now / 16) }
    requires costs { SmallCosts plan.now }
    requires modes { ModesFit plan.now }
    requires parts { InterPlanned kind (count0 pictures.now) (count1 pictures.now) 131 plan.now }
    ensures same_reference { stripe.new.picture.ghost_name ≡ stripe.old.picture.ghost_name }
    ensures begins { stripe.new.first ≡ stripe.old.first }
    ensures shapes { SameShapes stripe.old.picture.now stripe.new.picture.now }
    ensures record { (h : SliceHead) (plans : List RowPlan) (view : View) → IsBeside view beside.now → view.colocated ≡ colocated_at (named pictures.now.lists.now) address → h.kind ≡ kind → view.near.qp ≡ site.now.qp → result ≡ record_at (task_in place.now h pictures.now plans) site.now view plan.now (planes_in stripe.old) }
    ensures planes { (first number : ℕ) → site.now ≡ site_of place.now.across first number site.now.qp → planes_in stripe.new ≡ macroblock_built place.now.across (sources_in pictures.now) first number result (planes_in stripe.old) }
{
    let (least, cost) = choose(kind, plan, site.qp, place.t8x8);
    if let Some(mb) = code_moving(stripe, pictures, kind, place, site, beside, address, cost) {
        return mb;
    }
    code_chosen(stripe, pictures, place, site, beside, least, plan)
}
