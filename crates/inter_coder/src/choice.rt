// What becomes of a macroblock: skipped, direct, or with the partitions of its plan. A caller asks in this order: `code_p_skip` or
// `code_b_direct` first; where that gives none, the kind of least cost is coded, by `code_planned` or by intra_coder. The coarsest coding
// asks for `build_p_skip` and `build_b_skip` alone.
ghost use Rattle.std.specs.Prelude.{◌≡◌, ◌≤◌, ◌<◌, true};
ghost use Rattle.enc_tables.specs.declared.records.MbKind.{MbKind};
ghost use Rattle.enc_tables.specs.declared.records.MbRecord.{MbRecord};
ghost use Rattle.enc_tables.specs.Kinds.{has_motion};
ghost use Rattle.picture_planes.specs.Pictures.{SameShapes};
ghost use Rattle.spec_partitions.specs.Near.{View};
ghost use Rattle.spec_partitions.specs.Derived.{skip_motion, direct_motion};
ghost use Rattle.spec_coded.specs.Planned.{moving, planned};
ghost use Rattle.residual_coder.specs.Stripes.{planes_in};
ghost use Rattle.inter_coder.specs.Given.{count0, count1, IsBeside};
ghost use Rattle.inter_coder.specs.Beside.{BesideFits, BesideSmall, PlanFits, PlanSmall, Stands};
ghost use Rattle.inter_coder.specs.Made.{made_by, built_by, difference_of, if_blank, direct_or, Taken};

use crate::coded::{as_b_skip, build_blank, coded_by, difference_from, is_blank, moving};
use crate::derived::{direct_motion, skip_motion};
use crate::given::{Beside, Pictures};
use crate::planned::planned;
use crate::samples::build_over;
use enc_tables::{MbKind, MbPlan, MbRecord, Motion};
use picture_planes::Stripe;
use spec_reconstruction::Site;

/// P_Skip, where the motion of skipping leaves no level: it is built in the stripe then; else none, and nothing is changed.
pub fn code_p_skip(
    stripe: &mut Stripe<'_>,
    pictures: &Pictures<'_>,
    site: &Site,
    t8x8: bool,
    beside: &Beside<'_>,
) -> Option<MbRecord>
    requires in_range { site.now.qp ≤ 51 }
    requires stands { Stands site.now pictures.now stripe.old }
    requires some { 0 < count0 pictures.now }
    requires short { BesideSmall 131 beside.now }
    ensures same_reference { stripe.new.picture.ghost_name ≡ stripe.old.picture.ghost_name }
    ensures first { stripe.new.first ≡ stripe.old.first }
    ensures shapes { SameShapes stripe.old.picture.now stripe.new.picture.now }
    ensures record { (view : View) → IsBeside view beside.now → result ≡ if_blank (made_by pictures.now t8x8 site.now (moving MbKind.PSkip site.now.qp (skip_motion view))) }
    ensures planes { Taken (built_by pictures.now site.now) (planes_in stripe.old) (planes_in stripe.new) result }
{
    let motion = skip_motion(beside);
    let mb = moving(MbKind::PSkip, site.qp, &motion);
    let coded = coded_by(pictures, t8x8, site, &mb);
    if !is_blank(&coded.mb) {
        return None;
    }
    build_over(stripe, site, &coded.prediction, &coded.mb);
    Some(coded.mb)
}

/// B_Skip, where direct motion leaves no level, and else B_Direct_16x16, where its prediction costs no more than `cost`: it is built in the
/// stripe then; else none, and nothing is changed. `colocated` is the motion of the blocks in the same place of list 1's first picture.
pub fn code_b_direct(
    stripe: &mut Stripe<'_>,
    pictures: &Pictures<'_>,
    site: &Site,
    t8x8: bool,
    beside: &Beside<'_>,
    colocated: &[Option<Motion>; 4],
    cost: u32,
) -> Option<MbRecord>
    requires in_range { site.now.qp ≤ 51 }
    requires stands { Stands site.now pictures.now stripe.old }
    requires some { (0 < count0 pictures.now) × (0 < count1 pictures.now) }
    requires fits { BesideFits (count0 pictures.now) (count1 pictures.now) beside.now }
    requires short { BesideSmall 131 beside.now }
    ensures same_reference { stripe.new.picture.ghost_name ≡ stripe.old.picture.ghost_name }
    ensures first { stripe.new.first ≡ stripe.old.first }
    ensures shapes { SameShapes stripe.old.picture.now stripe.new.picture.now }
    ensures record { (view : View) → IsBeside view beside.now → view.colocated ≡ colocated.now → (let direct : MbRecord = made_by pictures.now t8x8 site.now (moving MbKind.BDirect site.now.qp (direct_motion view)) in result ≡ direct_or (difference_of pictures.now site.now direct) cost direct) }
    ensures planes { Taken (built_by pictures.now site.now) (planes_in stripe.old) (planes_in stripe.new) result }
{
    let motion = direct_motion(beside, colocated);
    let mb = moving(MbKind::BDirect, site.qp, &motion);
    let coded = coded_by(pictures, t8x8, site, &mb);
    if is_blank(&coded.mb) {
        let skipped = as_b_skip(&coded.mb);
        build_over(stripe, site, &coded.prediction, &skipped);
        return Some(skipped);
    }
    let difference = difference_from(pictures, site, &coded.prediction.luma);
    if difference > cost {
        return None;
    }
    build_over(stripe, site, &coded.prediction, &coded.mb);
    Some(coded.mb)
}

/// A macroblock with the partitions of its plan, built in the stripe.
pub fn code_planned(
    stripe: &mut Stripe<'_>,
    pictures: &Pictures<'_>,
    site: &Site,
    t8x8: bool,
    beside: &Beside<'_>,
    kind: MbKind,
    plan: &MbPlan,
) -> MbRecord
    requires in_range { site.now.qp ≤ 51 }
    requires stands { Stands site.now pictures.now stripe.old }
    requires kind { has_motion kind ≡ true }
    requires plan { PlanFits (count0 pictures.now) (count1 pictures.now) plan.now }
    requires short_plan { PlanSmall 131 plan.now }
    requires short { BesideSmall 131 beside.now }
    ensures same_reference { stripe.new.picture.ghost_name ≡ stripe.old.picture.ghost_name }
    ensures first { stripe.new.first ≡ stripe.old.first }
    ensures shapes { SameShapes stripe.old.picture.now stripe.new.picture.now }
    ensures record { (view : View) → IsBeside view beside.now → result ≡ made_by pictures.now t8x8 site.now (planned view plan.now kind site.now.qp) }
    ensures planes { planes_in stripe.new ≡ built_by pictures.now site.now result (planes_in stripe.old) }
{
    let mb = planned(beside, plan, kind, site.qp);
    let coded = coded_by(pictures, t8x8, site, &mb);
    build_over(stripe, site, &coded.prediction, &coded.mb);
    coded.mb
}

/// P_Skip, whatever its motion leaves: a macroblock without levels, built in the stripe.
pub fn build_p_skip(
    stripe: &mut Stripe<'_>,
    pictures: &Pictures<'_>,
    site: &Site,
    beside: &Beside<'_>,
) -> MbRecord
    requires in_range { site.now.qp ≤ 51 }
    requires stands { Stands site.now pictures.now stripe.old }
    requires some { 0 < count0 pictures.now }
    requires short { BesideSmall 131 beside.now }
    ensures same_reference { stripe.new.picture.ghost_name ≡ stripe.old.picture.ghost_name }
    ensures first { stripe.new.first ≡ stripe.old.first }
    ensures shapes { SameShapes stripe.old.picture.now stripe.new.picture.now }
    ensures record { (view : View) → IsBeside view beside.now → result ≡ moving MbKind.PSkip site.now.qp (skip_motion view) }
    ensures planes { planes_in stripe.new ≡ built_by pictures.now site.now result (planes_in stripe.old) }
{
    let motion = skip_motion(beside);
    build_blank(stripe, pictures, site, MbKind::PSkip, &motion)
}

/// B_Skip, whatever direct motion leaves: a macroblock without levels, built in the stripe. `colocated` is as for `code_b_direct`.
pub fn build_b_skip(
    stripe: &mut Stripe<'_>,
    pictures: &Pictures<'_>,
    site: &Site,
    beside: &Beside<'_>,
    colocated: &[Option<Motion>; 4],
) -> MbRecord
    requires in_range { site.now.qp ≤ 51 }
    requires stands { Stands site.now pictures.now stripe.old }
    requires some { (0 < count0 pictures.now) × (0 < count1 pictures.now) }
    requires fits { BesideFits (count0 pictures.now) (count1 pictures.now) beside.now }
    requires short { BesideSmall 131 beside.now }
    ensures same_reference { stripe.new.picture.ghost_name ≡ stripe.old.picture.ghost_name }
    ensures first { stripe.new.first ≡ stripe.old.first }
    ensures shapes { SameShapes stripe.old.picture.now stripe.new.picture.now }
    ensures record { (view : View) → IsBeside view beside.now → view.colocated ≡ colocated.now → result ≡ moving MbKind.BSkip site.now.qp (direct_motion view) }
    ensures planes { planes_in stripe.new ≡ built_by pictures.now site.now result (planes_in stripe.old) }
{
    let motion = direct_motion(beside, colocated);
    build_blank(stripe, pictures, site, MbKind::BSkip, &motion)
}
