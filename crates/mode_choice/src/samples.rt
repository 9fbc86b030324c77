// Samples are bytes.
ghost use Rattle.std.specs.Prelude.{◌≤◌, ℕ, slice_index};
ghost use Rattle.picture_planes.specs.Samples.{at, samples_of};

use picture_planes::Plane;

// Samples that are given have eight bits.
pub fn lemma_bytes_fit(bytes: &[u8])
    ensures { (k : ℕ) → slice_index bytes.now k ≤ 255 }
{}

// The samples of a plane have eight bits.
pub fn lemma_samples_fit(plane: &Plane)
    ensures samples { (k : ℕ) → slice_index (samples_of plane.now) k ≤ 255 }
    ensures places { (x y : ℕ) → at plane.now x y ≤ 255 }
{
    lemma_bytes_fit(plane.rows_from(0, 0));
}
