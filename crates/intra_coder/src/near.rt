// The neighbours of blocks, read from the planes built so far, of which each has some rows of a larger one.
ghost use Rattle.std.specs.Prelude.{◌≡◌};
ghost use Rattle.intra_coder.specs.Reach.{Reachable, Readable};
ghost use Rattle.residual_coder.specs.Stripes.{samples_from};
ghost use Rattle.spec_intra.specs.Near.{neighbours4, neighbours8, neighbours16, neighbours_chroma, plane_sample};

use picture_planes::Plane;
use spec_intra::{Avail, Nb4, Nb8, Nb16, NbC};

/// The neighbours of the 4x4 block at (`x`, `y`) of a larger plane, of which `plane` has the rows from `top` on.
#[inline(always)]
pub fn near4(plane: &Plane, top: u32, avail: &Avail, x: u32, y: u32) -> Nb4
    requires { Readable 4 top plane.now avail.now x y }
    ensures { result ≡ neighbours4 (plane_sample plane.now.width (samples_from top plane.now)) avail.now x y }
{
    plane_blocks::near4(plane, avail, x, y - top)
}

/// The neighbours of the 8x8 block at (`x`, `y`), as with `near4`.
#[inline(always)]
pub fn near8(plane: &Plane, top: u32, avail: &Avail, x: u32, y: u32) -> Nb8
    requires { Readable 8 top plane.now avail.now x y }
    ensures { result ≡ neighbours8 (plane_sample plane.now.width (samples_from top plane.now)) avail.now x y }
{
    plane_blocks::near8(plane, avail, x, y - top)
}

/// The luma neighbours of the macroblock at (`x`, `y`), as with `near4`.
#[inline(always)]
pub fn near16(plane: &Plane, top: u32, avail: &Avail, x: u32, y: u32) -> Nb16
    requires { Reachable 16 top plane.now avail.now x y }
    ensures { result ≡ neighbours16 (plane_sample plane.now.width (samples_from top plane.now)) avail.now x y }
{
    plane_blocks::near16(plane, avail, x, y - top)
}

/// The neighbours of a macroblock in a chroma plane, where it begins at (`x`, `y`), as with `near4`.
#[inline(always)]
pub fn near_chroma(plane: &Plane, top: u32, avail: &Avail, x: u32, y: u32) -> NbC
    requires { Reachable 8 top plane.now avail.now x y }
    ensures { result ≡ neighbours_chroma (plane_sample plane.now.width (samples_from top plane.now)) avail.now x y }
{
    plane_blocks::near_chroma(plane, avail, x, y - top)
}
