// Samples are bytes.
ghost use Rattle.std.specs.Prelude.{◌<◌, ℕ, length, get_or};
ghost use Rattle.residual_coder.specs.Stripes.{planes_in};
ghost use Rattle.picture_planes.specs.Pictures.{planes_of};
ghost use Rattle.picture_planes.specs.Samples.{samples_of};
ghost use Rattle.spec_record_laws.specs.Coded.{AreBytes, PlanesFit};
ghost use Rattle.spec_tasks.specs.Given.{PicturesFit};
ghost use Rattle.ref_lists.specs.declared.held.Reference.{Reference as Held};
ghost use Rattle.ref_lists.specs.Named.{named};

use picture_planes::{Picture, Plane, Stripe};
use ref_lists::{Lists, Reference};

fn lemma_bytes_fit(bytes: &[u8])
    ensures { AreBytes bytes.now }
{}

fn lemma_plane_fits(plane: &Plane)
    ensures { AreBytes (samples_of plane.now) }
{
    lemma_bytes_fit(plane.rows_from(0, 0));
}

// The samples of a picture have eight bits.
pub fn lemma_samples_fit(picture: &Picture)
    ensures { PlanesFit (planes_of picture.now) }
{
    lemma_plane_fits(&picture.y);
    lemma_plane_fits(&picture.cb);
    lemma_plane_fits(&picture.cr);
}

// So have those of a stripe, and the zeros above it.
pub fn lemma_stripe_fits(stripe: &Stripe<'_>)
    ensures { PlanesFit (planes_in stripe.now) }
{
    lemma_samples_fit(stripe.picture);
}

// So have those of references,
fn lemma_references_fit(held: &[Reference])
    ensures { (k : ℕ) (d : Held) → k < length held.now → PlanesFit (planes_of (get_or held.now k d).picture) }
{
    for k in 0..held.len() {
        lemma_samples_fit(&held[k].picture);
    }
}

// and of the pictures that lists name.
pub fn lemma_lists_fit(lists: &Lists<'_>)
    ensures list0 { PicturesFit (named lists.now).list0 }
    ensures list1 { PicturesFit (named lists.now).list1 }
{
    lemma_references_fit(lists.held);
}
