// Where a macroblock stands.
ghost use Rattle.std.specs.Prelude.{◌≡◌, ◌≤◌, ◌<◌, ◌+◌, ◌-◌, ◌*◌, ◌/◌, ◌%◌, ◌==◌, ◌&&◌, ℕ, not, nat_le};
ghost use Rattle.intra_coder.specs.Reach.{Stands};
ghost use Rattle.spec_reconstruction.specs.Records.{site_of};
ghost use Rattle.spec_intra.specs.Near.{macroblock_avail};
ghost use Rattle.picture_planes.specs.declared.plane.Plane.{Plane};

use spec_intra::Avail;
use spec_reconstruction::Site;

// Which neighbouring macroblocks are in the same slice and earlier.
#[inline(always)]
fn macroblock_avail(width: u32, first: u32, address: u32) -> Avail
    requires width { (0 < width) × (width ≤ 256) }
    requires address { address < 65536 }
    requires first { first ≤ address }
    ensures { result ≡ macroblock_avail width first address }
{
    let at_left = address % width == 0;
    let at_right = (address + 1) % width == 0;
    Avail {
        left: !at_left && first < address,
        above: first + width <= address,
        corner: !at_left && first + width < address,
        above_right: !at_right && first + width <= address + 1,
    }
}

/// Where macroblock `address` of a picture stands, which is `width` macroblocks wide, and which neighbours it may predict from
/// (ITU-T H.264, clauses 6.4.1, 6.4.8 and 6.4.9). The macroblock's slice begins with macroblock `first`.
pub fn site_of(width: u32, first: u32, address: u32, qp: u8) -> Site
    requires width { (0 < width) × (width ≤ 256) }
    requires address { address < 65536 }
    requires first { first ≤ address }
    ensures { result ≡ site_of width first address qp }
{
    let near = macroblock_avail(width, first, address);
    Site {
        x: 16 * (address % width),
        y: 16 * (address / width),
        near,
        qp,
    }
}

/// A macroblock of a slice lies inside the luma plane of each stripe that has the slice's first row and the macroblock's own, and so do its
/// available neighbours. The slice begins with macroblock row `row`, the stripe with macroblock row `top`.
pub fn sites_stand()
    ensures { (width rows row top address qp : ℕ) (plane : Plane) → 0 < width → top ≤ row → row * width ≤ address → address < width * (top + rows) → plane.width ≡ 16 * width → plane.height ≡ 16 * rows → Stands (site_of width (row * width) address qp) (16 * top) plane }
{}
