// A whole slice.
ghost use Rattle.std.specs.Prelude.{◌≡◌, ◌≤◌, ◌<◌, ◌-◌, ◌*◌, ◌/◌, List, [], length, OnOk, Some, true, false};
ghost use Rattle.picture_planes.specs.Pictures.{SameShapes, planes_of};
ghost use Rattle.spec_lists.specs.References.{Reference};
ghost use Rattle.spec_lists.specs.Lists.{lists_of};
ghost use Rattle.spec_lists.specs.Colocated.{colocated_at};
ghost use Rattle.spec_slice_payload.specs.Slices.{IsHead, IsSlice};
ghost use Rattle.spec_slice_payload.specs.Writing.{layer_bits, layer_payload};
ghost use Rattle.spec_slice_payload.specs.Reading.{read_layer};
ghost use Rattle.spec_reconstruction.specs.Records.{slice_built};
ghost use Rattle.spec_tasks.specs.Choosing.{sources_of};
ghost use Rattle.ref_lists.specs.Named.{named};
ghost use Rattle.residual_coder.specs.Stripes.{planes_in};
ghost use Rattle.slice_coder.specs.Plans.{ArePlanned, HasLists, HoldsRows, IsWhole, format_of, task_of};
ghost use Rattle.slice_coder.specs.Records.{records_by, coded};
ghost use Rattle.slice_coder.specs.Left.{Leaves};

use crate::close::close;
use crate::data::code_macroblocks;
use crate::place::Place;
use crate::samples::{lemma_lists_fit, lemma_samples_fit, lemma_stripe_fits};
use bit_strings::{BitBuf, Full};
use cabac_coder::Coder;
use cabac_contexts::Contexts;
use enc_tables::{MbRecord, RowPlan};
use inter_coder::Pictures;
use param_sets::write_slice_head;
use picture_planes::{Picture, Stripe};
use ref_lists::Lists;
use spec_headers::SliceHead;

/// Codes a slice: the rows of macroblocks from `rows.0` to `rows.1` - 1 of the source, by their plans; or its coarsest
/// coding, for which `plans` isn't read. `stripe` has these rows at least, and gets their samples as a decoder builds
/// them before the loop filter; all its other samples stay. `records` gets the macroblocks' records, and `buf`, which
/// is empty, the payload of the slice's unit with zeros to the byte (ITU-T H.264, clause 7.3.2.8). Source, references
/// and the stripe's picture are of one size.
///
/// `Full` comes exactly where the payload passes the buffer's room. The buffer is then empty, and samples and records
/// aren't told.
pub fn code_slice(
    stripe: &mut Stripe<'_>,
    source: &Picture,
    lists: &Lists<'_>,
    plans: &[RowPlan],
    head: &SliceHead,
    rows: (u32, u32),
    t8x8: bool,
    coarsest: bool,
    records: &mut [MbRecord],
    mut buf: BitBuf,
) -> (Result<(), Full>, BitBuf)
    requires whole { IsWhole source.now }
    requires wide { stripe.old.picture.now.y.width ≡ source.now.y.width }
    requires rows { (rows.0 < rows.1) × (16 * rows.1 ≤ source.now.y.height) }
    requires holds { HoldsRows stripe.old rows.0 rows.1 }
    requires head { IsHead head.now.idr head.now }
    requires first { head.now.first_mb ≡ rows.0 * (source.now.y.width / 16) }
    requires lists { HasLists head.now source.now lists.now }
    requires row_plans { coarsest ≡ false → length plans.now ≡ rows.1 - rows.0 }
    requires planned { coarsest ≡ false → ArePlanned (format_of source.now t8x8) head.now (named lists.now) (planes_of source.now) plans.now }
    requires greatest { coarsest ≡ true → head.now.qp ≡ 51 }
    requires records { length records.old ≡ (rows.1 - rows.0) * (source.now.y.width / 16) }
    requires empty { buf.text ≡ [] }
    ensures same_reference { stripe.new.picture.ghost_name ≡ stripe.old.picture.ghost_name }
    ensures place { stripe.new.first ≡ stripe.old.first }
    ensures shapes { SameShapes stripe.old.picture.now stripe.new.picture.now }
    ensures payload { Leaves result.0 buf.room buf.made (layer_bits (format_of source.now t8x8) (coded coarsest head.now (task_of (format_of source.now t8x8) head.now (named lists.now) (planes_of source.now) plans.now) (planes_in stripe.old) (length records.old))) result.1 }
    ensures records { OnOk result.0 (records.new ≡ records_by coarsest (task_of (format_of source.now t8x8) head.now (named lists.now) (planes_of source.now) plans.now) (planes_in stripe.old) (length records.old)) }
    ensures planes { OnOk result.0 (planes_in stripe.new ≡ slice_built (source.now.y.width / 16) (sources_of (named lists.now)) head.now.first_mb records.new (planes_in stripe.old)) }

    // The slice is one of the syntax, and its payload is read back as itself, wherever the header names these lists.
    ensures slice { IsSlice (format_of source.now t8x8) (colocated_at (named lists.now)) head.now.idr (coded coarsest head.now (task_of (format_of source.now t8x8) head.now (named lists.now) (planes_of source.now) plans.now) (planes_in stripe.old) (length records.old)) }
    ensures read_back { (held : List Reference) → lists_of head.now held ≡ Some (named lists.now) → read_layer (format_of source.now t8x8) head.now.idr held (layer_payload (format_of source.now t8x8) (coded coarsest head.now (task_of (format_of source.now t8x8) head.now (named lists.now) (planes_of source.now) plans.now) (planes_in stripe.old) (length records.old))) ≡ Some (coded coarsest head.now (task_of (format_of source.now t8x8) head.now (named lists.now) (planes_of source.now) plans.now) (planes_in stripe.old) (length records.old)) }
{
    lemma_samples_fit(source);
    lemma_stripe_fits(stripe);
    lemma_lists_fit(lists);
    let pictures = Pictures { lists, source };
    let place = Place {
        across: source.y.width / 16,
        row: rows.0,
        end: rows.1,
        t8x8,
    };
    if write_slice_head(&mut buf, head).is_err() {
        return (Err(Full), buf);
    }
    let mut coder = Coder::start(buf);
    let mut contexts = Contexts::init(head.kind, head.qp);
    code_macroblocks(
        &mut coder,
        &mut contexts,
        stripe,
        &pictures,
        plans,
        head,
        &place,
        coarsest,
        records,
    );
    close(coder)
}
