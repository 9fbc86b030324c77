// A macroblock of the coarsest coding.
ghost use Rattle.std.specs.Prelude.{◌≡◌, ◌≤◌, ◌<◌, ◌*◌, ◌/◌, ℕ};
ghost use Rattle.picture_planes.specs.Pictures.{SameShapes};
ghost use Rattle.spec_lists.specs.Colocated.{colocated_at};
ghost use Rattle.spec_partitions.specs.InRange.{HasEntries};
ghost use Rattle.spec_partitions.specs.Near.{View};
ghost use Rattle.spec_reconstruction.specs.Records.{macroblock_built, site_of};
ghost use Rattle.spec_coded.specs.Coarsest.{coarsest_in};
ghost use Rattle.ref_lists.specs.Named.{named};
ghost use Rattle.residual_coder.specs.Stripes.{planes_in};
ghost use Rattle.inter_coder.specs.Given.{wide_of, tall_of, count0, count1, sources_in, IsBeside};
ghost use Rattle.slice_coder.specs.Given.{CanStand};

use crate::colocated::colocated_at;
use crate::place::Place;
use enc_tables::{MbRecord, SliceKind};
use inter_coder::{Beside, Pictures, build_b_skip, build_p_skip};
use intra_coder::build_flat;
use picture_planes::Stripe;
use spec_reconstruction::Site;

/// Makes the coarsest record of the macroblock at an address of a slice of a kind, and builds it in the stripe as a
/// decoder does: in I slices the mean of the samples around, in others what is predicted by the motion of skipping,
/// each without levels.
pub fn code_coarsest(
    stripe: &mut Stripe<'_>,
    pictures: &Pictures<'_>,
    kind: SliceKind,
    place: &Place,
    site: &Site,
    beside: &Beside<'_>,
    address: u32,
) -> MbRecord
    requires there { CanStand site.now pictures.now stripe.old beside.now }
    requires across { wide_of pictures.now ≡ 16 * place.now.across }
    requires entries { HasEntries kind (count0 pictures.now) (count1 pictures.now) }
    requires address { address < wide_of pictures.now / 16 * (tall_of pictures.now / 16) }
    requires greatest { site.now.qp ≡ 51 }
    ensures same_reference { stripe.new.picture.ghost_name ≡ stripe.old.picture.ghost_name }
    ensures begins { stripe.new.first ≡ stripe.old.first }
    ensures shapes { SameShapes stripe.old.picture.now stripe.new.picture.now }
    ensures record { (view : View) → IsBeside view beside.now → view.colocated ≡ colocated_at (named pictures.now.lists.now) address → result ≡ coarsest_in kind view }
    ensures planes { (first number : ℕ) → site.now ≡ site_of place.now.across first number site.now.qp → planes_in stripe.new ≡ macroblock_built place.now.across (sources_in pictures.now) first number result (planes_in stripe.old) }
{
    match kind {
        SliceKind::I => build_flat(stripe, site),
        SliceKind::P => build_p_skip(stripe, pictures, site, beside),
        SliceKind::B => {
            let colocated = colocated_at(pictures, address);
            build_b_skip(stripe, pictures, site, beside, &colocated)
        }
    }
}
