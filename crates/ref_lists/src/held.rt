// A reference picture.
ghost use Rattle.std.specs.Prelude.{◌≡◌, ◌≤◌, ◌*◌, ◌/◌, ℕ, IfOk};
ghost use Rattle.subpel_filter.specs.Halves.{AreSized};

use block_sums::SumTable;
use enc_tables::{Motion, Vector};
use picture_planes::{Picture, Plane};
use std::alloc::{AllocError as OutOfMemory, Global};
use subpel_filter::{HalfPlanes, fill_halves};

/// A picture as later pictures refer to it.
#[derive(Drop)]
pub struct Reference {
    /// Its samples, behind the deblocking filter.
    pub picture: Picture,
    /// The sums of its 8x8 blocks of luma samples.
    pub sums: SumTable,
    /// The half samples of its luma plane.
    pub halves: HalfPlanes,
    /// Of each macroblock whether it is an intra one, and the motion of its four 8x8 blocks.
    pub records: Vec<(bool, [Motion; 4])>,
    /// Its picture order count since the last IDR picture (PicOrderCnt).
    pub poc: i32,
    /// Its frame_num.
    pub frame_num: u16,
}

// Half planes of the size and margin of a plane, blank.
fn blank_halves(alloc: Global, plane: &Plane) -> Result<HalfPlanes, OutOfMemory>
    requires width { (1 ≤ plane.now.width) × (plane.now.width ≤ 4096) }
    requires height { (1 ≤ plane.now.height) × (plane.now.height ≤ 2304) }
    requires pad { plane.now.pad ≤ 40 }
    ensures { IfOk result (λ h. AreSized plane.now h) }
{
    let b = Plane::new(alloc, plane.width, plane.height, plane.pad)?;
    let h = Plane::new(alloc, plane.width, plane.height, plane.pad)?;
    let j = Plane::new(alloc, plane.width, plane.height, plane.pad)?;
    Ok(HalfPlanes { b, h, j })
}

impl Reference {
    ghost use Rattle.picture_planes.specs.Clamped.{rounded};
    ghost use Rattle.block_sums.specs.Tables.{HasShapeOf};
    ghost use Rattle.ref_lists.specs.Held.{seen, IsMade, IsReady};

    /// A blank picture of this size, rounded up to multiples of 16, with the margins of `Picture::new`. Width is from 1 to 4096 and height
    /// from 1 to 2304.
    pub fn new(alloc: Global, width: u32, height: u32) -> Result<Reference, OutOfMemory>
        requires width { (1 ≤ width) × (width ≤ 4096) }
        requires height { (1 ≤ height) × (height ≤ 2304) }
        ensures { IfOk result (λ r. IsMade (rounded width) (rounded height) r) }
    {
        let picture = Picture::new(alloc, width, height)?;
        let sums = SumTable::new(alloc, picture.y.width, picture.y.height, 40)?;
        let halves = blank_halves(alloc, &picture.y)?;
        let count = (picture.y.width / 16 * (picture.y.height / 16)) as usize;
        let still = Motion {
            refs: [-1, -1],
            vectors: [Vector { x: 0, y: 0 }; 2],
        };
        let records = vec![in alloc; (true, [still; 4]); count]?;
        Ok(Reference {
            picture,
            sums,
            halves,
            records,
            poc: 0,
            frame_num: 0,
        })
    }

    // Fills the margins, the table of sums and the half planes; all that is seen of the reference stays.
    pub(crate) fn make_ready(&mut self)
        requires sums { HasShapeOf self.old.sums self.old.picture.y }
        requires halves { AreSized self.old.picture.y self.old.halves }
        ensures ready { IsReady self.new }
        ensures made { (width height : ℕ) → IsMade width height self.old → IsMade width height self.new }
        ensures seen { seen self.new ≡ seen self.old }
        ensures poc { self.new.poc ≡ self.old.poc }
        ensures frame_num { self.new.frame_num ≡ self.old.frame_num }
    {
        self.picture.pad_edges();
        self.sums.fill(&self.picture.y);
        let picture = &self.picture;
        fill_halves(&picture.y, &mut self.halves);
    }
}
