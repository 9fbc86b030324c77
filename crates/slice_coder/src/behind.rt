// The macroblock behind those before it in its slice.
ghost use Rattle.std.specs.Prelude.{◌≡◌, ◌<◌, ◌+◌, ◌-◌, ◌*◌, length};
ghost use Rattle.picture_planes.specs.Pictures.{SameShapes};
ghost use Rattle.spec_partitions.specs.Near.{last_qp};
ghost use Rattle.spec_reconstruction.specs.Records.{macroblock_built};
ghost use Rattle.residual_coder.specs.Stripes.{planes_in};
ghost use Rattle.inter_coder.specs.Given.{wide_of, sources_in};
ghost use Rattle.slice_coder.specs.Plans.{HoldsRows};
ghost use Rattle.slice_coder.specs.Records.{next_by};
ghost use Rattle.slice_coder.specs.Given.{IsPlaced, CanBe, SamplesFit, MovesFit, task_in};

use crate::coarsest::code_coarsest;
use crate::macroblock::{code_plain, plan_of};
use crate::near::beside_of;
use crate::place::Place;
use enc_tables::{MbRecord, RowPlan};
use inter_coder::Pictures;
use intra_coder::{site_of, sites_stand};
use picture_planes::Stripe;
use spec_headers::SliceHead;

/// Codes the macroblock behind these of a slice, by the written choice or as the coarsest one, and builds it in the
/// stripe as a decoder does of its record.
pub fn code_record(
    stripe: &mut Stripe<'_>,
    pictures: &Pictures<'_>,
    plans: &[RowPlan],
    head: &SliceHead,
    place: &Place,
    coarsest: bool,
    before: &[MbRecord],
) -> MbRecord
    requires placed { IsPlaced place.now head.now pictures.now }
    requires can_be { CanBe coarsest place.now head.now pictures.now plans.now }
    requires samples { SamplesFit pictures.now }
    requires alike { stripe.old.picture.now.y.width ≡ wide_of pictures.now }
    requires holds { HoldsRows stripe.old place.now.row place.now.end }
    requires more { length before.now < (place.now.end - place.now.row) * place.now.across }
    requires moves { MovesFit head.now before.now }
    requires qp { last_qp head.now.qp before.now ≡ head.now.qp }
    ensures same_reference { stripe.new.picture.ghost_name ≡ stripe.old.picture.ghost_name }
    ensures begins { stripe.new.first ≡ stripe.old.first }
    ensures shapes { SameShapes stripe.old.picture.now stripe.new.picture.now }
    ensures record { result ≡ next_by coarsest (task_in place.now head.now pictures.now plans.now) before.now (planes_in stripe.old) }
    ensures planes { planes_in stripe.new ≡ macroblock_built place.now.across (sources_in pictures.now) head.now.first_mb (head.now.first_mb + length before.now) result (planes_in stripe.old) }
{
    sites_stand();
    let n = before.len() as u32;
    let address = head.first_mb + n;
    let site = site_of(place.across, head.first_mb, address, head.qp);
    let beside = beside_of(before, place.across, head.first_mb);
    if coarsest {
        return code_coarsest(stripe, pictures, head.kind, place, &site, &beside, address);
    }
    let plan = plan_of(plans, place.across, n);
    code_plain(
        stripe, pictures, head.kind, place, &site, &beside, address, plan,
    )
}
