// The best modes of single blocks of the source, predicted from the source.
ghost use Rattle.std.specs.Prelude.{◌≡◌, ◌≤◌, ◌<◌, ◌+◌, ◌*◌, ℕ};
ghost use Rattle.picture_planes.specs.Samples.{samples_of};
ghost use Rattle.plane_blocks.specs.Reach.{Reachable, Readable};
ghost use Rattle.spec_intra.specs.Predictions.{from_edge, is_allowed as may_have, predicted16, predicted_chroma};
ghost use Rattle.spec_basics.specs.Sums.{sad};
ghost use Rattle.spec_choice.specs.IntraPlans.{best4, best8, best16, best_chroma};

use crate::difference::difference;
use crate::modes::{Costs, least};
use intra_pred::{Avail, Line4, Line8, Nb16, NbC, allowed, pred_chroma, pred16};
use picture_planes::Plane;
use plane_blocks::{near_chroma, near4, near8, near16, read_block};
use spec_choice::ModeCost;

#[derive(Clone, Copy)]
struct Block4 {
    source: [u8; 16],
    line: Line4,
}

#[derive(Clone, Copy)]
struct Block8 {
    source: [u8; 64],
    line: Line8,
}

#[derive(Clone, Copy)]
struct Block16 {
    source: [u8; 256],
    near: Nb16,
}

#[derive(Clone, Copy)]
struct Chroma {
    source_cb: [u8; 64],
    near_cb: NbC,
    source_cr: [u8; 64],
    near_cr: NbC,
}

impl Costs for Block4 {
    ghost count = { λ b. 9 };

    ghost bound = { λ b. 4080 };

    ghost allowed_at = { λ b m. may_have 4 m b.line.avail };

    ghost cost_at = { λ b m. sad b.source (from_edge 4 m b.line.avail b.line.samples) };

    fn is_allowed(&self, mode: u8) -> bool {
        allowed(4, mode, &self.line.avail)
    }

    fn cost(&self, mode: u8) -> u32 {
        difference(&self.source, &self.line.pred(mode))
    }
}

impl Costs for Block8 {
    ghost count = { λ b. 9 };

    ghost bound = { λ b. 16320 };

    ghost allowed_at = { λ b m. may_have 8 m b.line.avail };

    ghost cost_at = { λ b m. sad b.source (from_edge 8 m b.line.avail b.line.samples) };

    fn is_allowed(&self, mode: u8) -> bool {
        allowed(8, mode, &self.line.avail)
    }

    fn cost(&self, mode: u8) -> u32 {
        difference(&self.source, &self.line.pred(mode))
    }
}

impl Costs for Block16 {
    ghost count = { λ b. 4 };

    ghost bound = { λ b. 65280 };

    ghost allowed_at = { λ b m. may_have 16 m b.near.avail };

    ghost cost_at = { λ b m. sad b.source (predicted16 m b.near) };

    fn is_allowed(&self, mode: u8) -> bool {
        allowed(16, mode, &self.near.avail)
    }

    fn cost(&self, mode: u8) -> u32 {
        difference(&self.source, &pred16(mode, &self.near))
    }
}

impl Costs for Chroma {
    ghost count = { λ b. 4 };

    ghost bound = { λ b. 32640 };

    ghost allowed_at = { λ b m. may_have 2 m b.near_cb.avail };

    ghost cost_at = { λ b m. sad b.source_cb (predicted_chroma m b.near_cb) + sad b.source_cr (predicted_chroma m b.near_cr) };

    fn is_allowed(&self, mode: u8) -> bool {
        allowed(2, mode, &self.near_cb.avail)
    }

    fn cost(&self, mode: u8) -> u32 {
        let cb = difference(&self.source_cb, &pred_chroma(mode, &self.near_cb));
        let cr = difference(&self.source_cr, &pred_chroma(mode, &self.near_cr));
        cb + cr
    }
}

/// The best mode of the 4x4 luma block at (`x`, `y`).
pub fn choose4(luma: &Plane, avail: &Avail, x: u32, y: u32) -> ModeCost
    requires { Readable 4 luma.now avail.now x y }
    ensures value { result ≡ best4 luma.now.width (samples_of luma.now) avail.now x y }
    ensures small { result.cost ≤ 4080 }
{
    let line = Line4::of(&near4(luma, avail, x, y));
    let mut source = [0; 16];
    read_block(luma, x, y, 4, &mut source);
    least(&Block4 { source, line }, 9)
}

/// The best mode of the 8x8 luma block at (`x`, `y`).
pub fn choose8(luma: &Plane, avail: &Avail, x: u32, y: u32) -> ModeCost
    requires { Readable 8 luma.now avail.now x y }
    ensures value { result ≡ best8 luma.now.width (samples_of luma.now) avail.now x y }
    ensures small { result.cost ≤ 16320 }
{
    let line = Line8::of(&near8(luma, avail, x, y));
    let mut source = [0; 64];
    read_block(luma, x, y, 8, &mut source);
    least(&Block8 { source, line }, 9)
}

/// The best mode of the luma macroblock at (`x`, `y`).
pub fn choose16(luma: &Plane, avail: &Avail, x: u32, y: u32) -> ModeCost
    requires { Reachable 16 luma.now avail.now x y }
    ensures value { result ≡ best16 luma.now.width (samples_of luma.now) avail.now x y }
    ensures small { result.cost ≤ 65280 }
{
    let near = near16(luma, avail, x, y);
    let mut source = [0; 256];
    read_block(luma, x, y, 16, &mut source);
    least(&Block16 { source, near }, 4)
}

/// The best chroma mode of the macroblock at (`x`, `y`) of the chroma planes.
pub fn choose_chroma(cb: &Plane, cr: &Plane, avail: &Avail, x: u32, y: u32) -> ModeCost
    requires cb { Reachable 8 cb.now avail.now x y }
    requires cr { Reachable 8 cr.now avail.now x y }
    requires same { cb.now.width ≡ cr.now.width }
    ensures value { result ≡ best_chroma cb.now.width (samples_of cb.now) (samples_of cr.now) avail.now x y }
    ensures small { result.cost ≤ 32640 }
{
    let near_cb = near_chroma(cb, avail, x, y);
    let near_cr = near_chroma(cr, avail, x, y);
    let mut source_cb = [0; 64];
    read_block(cb, x, y, 8, &mut source_cb);
    let mut source_cr = [0; 64];
    read_block(cr, x, y, 8, &mut source_cr);
    let costs = Chroma {
        source_cb,
        near_cb,
        source_cr,
        near_cr,
    };
    least(&costs, 4)
}
