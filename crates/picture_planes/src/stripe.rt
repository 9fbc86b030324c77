// A stripe is a picture of some rows, lent for writing.
ghost use Rattle.std.specs.Prelude.{◌≡◌, ◌≤◌, ◌<◌, ◌+◌, ◌-◌, ◌*◌, ℕ, List, length};
ghost use Rattle.std.specs.Borrow.{sem};
ghost use Rattle.picture_planes.specs.Clamped.{top_of};

use crate::Picture;

/// Rows of a picture from a macroblock row on, lent for writing. The stripe's own picture has these rows alone; they
/// keep the numbers that they have in the whole picture.
#[derive(Drop)]
pub struct Stripe<'a> {
    /// The picture of the stripe's rows.
    pub picture: &'a mut Picture,
    /// The macroblock row of the whole picture that the stripe begins with: at most 143.
    pub first: u32,
    ghost place: { first ≤ 143 },
}

// The first row of a macroblock row in a plane.
fn top(mb_row: u32, plane: u8) -> u32
    requires { mb_row ≤ 143 }
    ensures { result ≡ top_of mb_row plane }
{
    if plane == 0 { 16 * mb_row } else { 8 * mb_row }
}

impl<'a> Stripe<'a> {
    ghost use Rattle.picture_planes.specs.Samples.{row_of, at};
    ghost use Rattle.picture_planes.specs.Stripes.{stripe_plane, place_of, Holds, LendsStripeRow};

    /// Lends row `y` of a plane, without its margin, for writing; all other samples stay. Plane 0 is luma, 1 is Cb, 2
    /// is Cr.
    pub fn row(&mut self, plane: u8, y: u32) -> &mut [u8]
        requires { Holds self.old plane y }
        ensures* writes_back { sem 𝓛 (LendsStripeRow self.entry plane y result) }
        ensures value { result.now ≡ row_of (stripe_plane self.old plane) (place_of self.old plane y) }
        ensures len { length result.now ≡ (stripe_plane self.old plane).width }
    {
        let place = y - top(self.first, plane);
        self.picture.row_mut(plane, place)
    }

    /// The sample at column `x` of row `y` of a plane.
    pub fn get(&self, plane: u8, x: u32, y: u32) -> u8
        requires row { Holds self.now plane y }
        requires column { x < (stripe_plane self.now plane).width }
        ensures { result ≡ at (stripe_plane self.now plane) x (place_of self.now plane y) }
    {
        let place = y - top(self.first, plane);
        self.picture.plane(plane).row(place)[x as usize]
    }
}
