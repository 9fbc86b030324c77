// The macroblocks of a slice, one after another.
ghost use Rattle.std.specs.Prelude.{◌≡◌, ◌-◌, ◌*◌, length};
ghost use Rattle.picture_planes.specs.Pictures.{SameShapes};
ghost use Rattle.spec_record_laws.specs.Coded.{PlanesFit};
ghost use Rattle.spec_reconstruction.specs.Records.{slice_built};
ghost use Rattle.bin_writer.specs.Coding.{seen, IsReady};
ghost use Rattle.residual_coder.specs.Stripes.{planes_in};
ghost use Rattle.inter_coder.specs.Given.{wide_of, sources_in};
ghost use Rattle.slice_coder.specs.Plans.{HoldsRows};
ghost use Rattle.slice_coder.specs.Records.{records_by};
ghost use Rattle.slice_coder.specs.Given.{IsPlaced, CanBe, SamplesFit, task_in};
ghost use Rattle.slice_coder.specs.Strings.{Opened, string_at};

use crate::behind::code_record;
use crate::place::Place;
use crate::write::{write_behind, write_no_end};
use cabac_coder::Coder;
use cabac_contexts::Contexts;
use enc_tables::{MbRecord, RowPlan};
use inter_coder::Pictures;
use picture_planes::Stripe;
use spec_headers::SliceHead;

/// Codes the macroblocks of a slice, up to the last end_of_slice_flag. From the first bin that doesn't fit on only
/// records and samples are made.
pub fn code_macroblocks(
    coder: &mut Coder,
    contexts: &mut Contexts,
    stripe: &mut Stripe<'_>,
    pictures: &Pictures<'_>,
    plans: &[RowPlan],
    head: &SliceHead,
    place: &Place,
    coarsest: bool,
    records: &mut [MbRecord],
)
    requires ready { IsReady (seen coder.old contexts.old) }
    requires placed { IsPlaced place.now head.now pictures.now }
    requires can_be { CanBe coarsest place.now head.now pictures.now plans.now }
    requires samples { SamplesFit pictures.now }
    requires built_fits { PlanesFit (planes_in stripe.old) }
    requires alike { stripe.old.picture.now.y.width ≡ wide_of pictures.now }
    requires holds { HoldsRows stripe.old place.now.row place.now.end }
    requires count { length records.old ≡ (place.now.end - place.now.row) * place.now.across }
    ensures same_reference { stripe.new.picture.ghost_name ≡ stripe.old.picture.ghost_name }
    ensures begins { stripe.new.first ≡ stripe.old.first }
    ensures shapes { SameShapes stripe.old.picture.now stripe.new.picture.now }
    ensures records { records.new ≡ records_by coarsest (task_in place.now head.now pictures.now plans.now) (planes_in stripe.old) (length records.old) }
    ensures planes { planes_in stripe.new ≡ slice_built place.now.across (sources_in pictures.now) head.now.first_mb records.new (planes_in stripe.old) }
    ensures opened { Opened (string_at place.now head.now) (length records.old) records.new (seen coder.old contexts.old) (seen coder.new contexts.new) }
{
    for n in 0..records.len() {
        let record = code_record(
            stripe,
            pictures,
            plans,
            head,
            place,
            coarsest,
            &records[..n],
        );
        write_no_end(coder, n);
        write_behind(coder, contexts, &records[..n], &record, head, place);
        records[n] = record;
    }
}
