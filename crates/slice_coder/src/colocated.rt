// The motion of co-located macroblocks.
ghost use Rattle.std.specs.Prelude.{◌≡◌, ◌<◌, ◌*◌, ◌/◌, ℕ, length, replicate, map, cond, None, Some};
ghost use Rattle.spec_lists.specs.Colocated.{colocated_at};
ghost use Rattle.ref_lists.specs.Named.{named};
ghost use Rattle.inter_coder.specs.Given.{wide_of, tall_of, count1, AreLent};

use enc_tables::Motion;
use inter_coder::Pictures;

// The motion of the four 8x8 blocks of a macroblock; none where it is an intra one.
fn blocks_of(is_intra: bool, motion: &[Motion; 4]) -> [Option<Motion>; 4]
    ensures { result ≡ cond is_intra (replicate 4 None) (map (λ m. Some m) motion.now) }
{
    if is_intra {
        return [None; 4];
    }
    [
        Some(motion[0]),
        Some(motion[1]),
        Some(motion[2]),
        Some(motion[3]),
    ]
}

/// The motion of the blocks of the macroblock at an address in list 1's first picture (ITU-T H.264, clause 8.4.1.2.1).
pub fn colocated_at(pictures: &Pictures<'_>, address: u32) -> [Option<Motion>; 4]
    requires lent { AreLent pictures.now }
    requires some { 0 < count1 pictures.now }
    requires address { address < wide_of pictures.now / 16 * (tall_of pictures.now / 16) }
    ensures { result ≡ colocated_at (named pictures.now.lists.now) address }
{
    let lists = pictures.lists;
    let place = lists.list1.as_slice()[0];
    let (is_intra, motion) = &lists.held[place as usize].records[address as usize];
    blocks_of(*is_intra, motion)
}
