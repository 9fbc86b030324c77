// A picture is three planes.
ghost use Rattle.std.specs.Prelude.{◌≡◌, ◌≤◌, ◌<◌, ◌+◌, ◌-◌, ◌*◌, ◌/◌, ℕ, List, length, IfOk, replicate};
ghost use Rattle.std.specs.Borrow.{sem};
ghost use Rattle.picture_planes.specs.Clamped.{rounded};

use crate::{Plane, Stripe};
use std::alloc::{AllocError as OutOfMemory, Global};

/// A picture in 4:2:0: the chroma planes have half the luma plane's width and half its height.
#[derive(Drop)]
pub struct Picture {
    /// Luma.
    pub y: Plane,
    /// Cb.
    pub cb: Plane,
    /// Cr.
    pub cr: Plane,
    ghost widths: { (cb.width + cb.width ≡ y.width) × (cr.width + cr.width ≡ y.width) },
    ghost heights: { (cb.height + cb.height ≡ y.height) × (cr.height + cr.height ≡ y.height) },
}

impl Picture {
    ghost use Rattle.picture_planes.specs.Samples.{row_of, samples_of};
    ghost use Rattle.spec_film.specs.Over.{over};
    ghost use Rattle.picture_planes.specs.Placed.{RowsPlaced};
    ghost use Rattle.picture_planes.specs.Pictures.{plane_of, planes_of, SameShapes, SameBytes, AreFilled, LendsPictureRow};

    /// A picture whose samples are 0, in the margins too. Its sizes are rounded up to multiples of 16. The margins are
    /// 40 for luma and 20 for chroma. Width is from 1 to 4096 and height from 1 to 2304.
    pub fn new(alloc: Global, width: u32, height: u32) -> Result<Picture, OutOfMemory>
        requires width { (1 ≤ width) × (width ≤ 4096) }
        requires height { (1 ≤ height) × (height ≤ 2304) }
        ensures luma { IfOk result (λ p. (p.y.width ≡ rounded width) × (p.y.height ≡ rounded height) × (p.y.pad ≡ 40)) }
        ensures cb { IfOk result (λ p. (p.cb.width ≡ rounded width / 2) × (p.cb.height ≡ rounded height / 2) × (p.cb.pad ≡ 20)) }
        ensures cr { IfOk result (λ p. (p.cr.width ≡ rounded width / 2) × (p.cr.height ≡ rounded height / 2) × (p.cr.pad ≡ 20)) }
        ensures blank_luma { IfOk result (λ p. samples_of p.y ≡ replicate (p.y.height * p.y.width) 0) }
        ensures blank_cb { IfOk result (λ p. samples_of p.cb ≡ replicate (p.cb.height * p.cb.width) 0) }
        ensures blank_cr { IfOk result (λ p. samples_of p.cr ≡ replicate (p.cr.height * p.cr.width) 0) }
    {
        let wide = (width + 15) / 16 * 16;
        let high = (height + 15) / 16 * 16;
        let y = Plane::new(alloc, wide, high, 40)?;
        let cb = Plane::new(alloc, wide / 2, high / 2, 20)?;
        let cr = Plane::new(alloc, wide / 2, high / 2, 20)?;
        Ok(Picture { y, cb, cr })
    }

    /// A plane of the picture: 0 is luma, 1 is Cb, 2 is Cr.
    pub fn plane(&self, plane: u8) -> &Plane
        requires { plane ≤ 2 }
        ensures { result.now ≡ plane_of self.now plane }
    {
        match plane {
            0 => &self.y,
            1 => &self.cb,
            _ => &self.cr,
        }
    }

    /// Lends row `y` of a plane, without its margin, for writing; all other samples stay.
    pub fn row_mut(&mut self, plane: u8, y: u32) -> &mut [u8]
        requires plane { plane ≤ 2 }
        requires row { y < (plane_of self.old plane).height }
        ensures* writes_back { sem 𝓛 (LendsPictureRow self.entry plane y result) }
        ensures value { result.now ≡ row_of (plane_of self.old plane) y }
        ensures len { length result.now ≡ (plane_of self.old plane).width }
    {
        if plane == 0 {
            self.y.row_mut(y)
        } else if plane == 1 {
            self.cb.row_mut(y)
        } else {
            self.cr.row_mut(y)
        }
    }

    /// Lends all rows for writing.
    pub fn stripe(&mut self) -> Stripe<'_>
        ensures same_reference { result.picture.ghost_name ≡ self.entry.ghost_name }
        ensures picture { result.picture.now ≡ self.old }
        ensures first { result.first ≡ 0 }
    {
        Stripe {
            picture: self,
            first: 0,
        }
    }

    /// Lends all rows for writing, as the rows of a larger picture from macroblock row `mb_row` on.
    pub fn stripe_at(&mut self, mb_row: u32) -> Stripe<'_>
        requires { mb_row ≤ 143 }
        ensures same_reference { result.picture.ghost_name ≡ self.entry.ghost_name }
        ensures picture { result.picture.now ≡ self.old }
        ensures first { result.first ≡ mb_row }
    {
        Stripe {
            picture: self,
            first: mb_row,
        }
    }

    /// Takes over all rows of `part`, whose planes have the same widths, from macroblock row `mb_row` on; all other
    /// samples stay.
    pub fn place(&mut self, mb_row: u32, part: &Picture)
        requires small { mb_row ≤ 143 }
        requires luma { (16 * mb_row + part.now.y.height ≤ self.old.y.height) × (part.now.y.width ≡ self.old.y.width) }
        requires cb { (8 * mb_row + part.now.cb.height ≤ self.old.cb.height) × (part.now.cb.width ≡ self.old.cb.width) }
        requires cr { (8 * mb_row + part.now.cr.height ≤ self.old.cr.height) × (part.now.cr.width ≡ self.old.cr.width) }
        ensures shape { SameShapes self.old self.new }
        ensures luma { RowsPlaced (16 * mb_row) part.now.y.height part.now.y self.old.y self.new.y }
        ensures cb { RowsPlaced (8 * mb_row) part.now.cb.height part.now.cb self.old.cb self.new.cb }
        ensures cr { RowsPlaced (8 * mb_row) part.now.cr.height part.now.cr self.old.cr self.new.cr }
        ensures luma_samples { samples_of self.new.y ≡ over (samples_of self.old.y) (16 * mb_row * self.old.y.width) (samples_of part.now.y) }
        ensures cb_samples { samples_of self.new.cb ≡ over (samples_of self.old.cb) (8 * mb_row * self.old.cb.width) (samples_of part.now.cb) }
        ensures cr_samples { samples_of self.new.cr ≡ over (samples_of self.old.cr) (8 * mb_row * self.old.cr.width) (samples_of part.now.cr) }
    {
        self.y.place(16 * mb_row, &part.y);
        self.cb.place(8 * mb_row, &part.cb);
        self.cr.place(8 * mb_row, &part.cr);
    }

    /// Makes all samples, and the margins' too, those of `other`, whose sizes are the same.
    pub fn copy_from(&mut self, other: &Picture)
        requires { SameShapes other.now self.old }
        ensures shape { SameShapes self.old self.new }
        ensures bytes { SameBytes other.now self.new }
        ensures samples { planes_of self.new ≡ planes_of other.now }
        ensures filled { AreFilled other.now → AreFilled self.new }
    {
        self.y.copy_from(&other.y);
        self.cb.copy_from(&other.cb);
        self.cr.copy_from(&other.cr);
    }

    /// Fills the margins: each place in them gets the sample of the nearest place of the plane. The samples stay.
    pub fn pad_edges(&mut self)
        ensures shape { SameShapes self.old self.new }
        ensures filled { AreFilled self.new }
        ensures samples { planes_of self.new ≡ planes_of self.old }
    {
        self.y.pad_edges();
        self.cb.pad_edges();
        self.cr.pad_edges();
    }
}
