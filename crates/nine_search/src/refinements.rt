// The refinement of what a search of nine partitions found.
ghost use Rattle.std.specs.Prelude.{◌≡◌, ◌≤◌, ◌<◌, ℕ};
ghost use Rattle.picture_planes.specs.Margins.{IsFilled};
ghost use Rattle.spec_search.specs.Scan.{InRange};
ghost use Rattle.spec_search.specs.Refine.{IsRefined};
ghost use Rattle.subpel_filter.specs.Halves.{AreSized, AreHalves};
ghost use Rattle.spec_inter_plans.specs.InterPlans.{at};
ghost use Rattle.motion_search.specs.Planes.{IsBlockOf, SameSize};
ghost use Rattle.motion_search.specs.Quarters.{quarter_costs, kept_costs};
ghost use Rattle.nine_search.specs.Partitions.{partition_block};
ghost use Rattle.nine_search.specs.NineSearches.{dx_at, dy_at};
ghost use Rattle.nine_search.specs.NineRefined.{vector_at, cost_at};

use crate::partitions::{Nine, nine_blocks};
use enc_tables::Vector;
use motion_search::refine_from;
use picture_planes::Plane;
use spec_search::Best;
use subpel_filter::HalfPlanes;

/// The best vectors of nine partitions in quarter samples.
#[derive(Clone, Copy, Debug, PartialEq, Eq, Drop)]
pub struct Refinements {
    /// The vector of each partition.
    pub vectors: [Vector; 9],
    /// The sum of absolute differences of the partition and its prediction.
    pub sads: [u32; 9],
}

// The best whole-sample vector of one partition.
fn best_at(nine: &Nine, k: usize) -> Best
    requires { k < 9 }
    ensures dx { result.dx ≡ dx_at nine.now k }
    ensures dy { result.dy ≡ dy_at nine.now k }
{
    Best {
        dx: nine.dx[k],
        dy: nine.dy[k],
        sad: nine.sads[k],
        compared: nine.compared,
    }
}

/// Refines the best vector of each partition of the macroblock at column `x` and row `y` by `refine_from`: `nine` is what
/// `search_nine` found for it in this reference.
///
/// The reference's margin is 40 and filled, source and reference have one size, the half planes have the reference's size
/// and margin, the macroblock lies inside, and no part of a best vector is above 32 in size.
pub fn refine_nine(
    source: &Plane,
    reference: &Plane,
    halves: &HalfPlanes,
    x: u32,
    y: u32,
    nine: &Nine,
) -> Refinements
    requires margin { reference.now.pad ≡ 40 }
    requires filled { IsFilled reference.now }
    requires sizes { SameSize source.now reference.now }
    requires halves { AreSized reference.now halves.now }
    requires macroblock { IsBlockOf source.now (at x y 16 16) }
    requires best { (k : ℕ) → k < 9 → InRange 32 (dx_at nine.now k) (dy_at nine.now k) }
    ensures kept { (k : ℕ) → k < 9 → IsRefined (kept_costs source.now reference.now halves.now (partition_block x y k)) (dx_at nine.now k) (dy_at nine.now k) (vector_at result k) (cost_at result k) }
    ensures same { AreHalves reference.now halves.now → (k : ℕ) → k < 9 → IsRefined (quarter_costs source.now reference.now (partition_block x y k)) (dx_at nine.now k) (dy_at nine.now k) (vector_at result k) (cost_at result k) }
{
    let blocks = nine_blocks(x, y);
    let mut vectors = [Vector { x: 0, y: 0 }; 9];
    let mut sads = [0; 9];
    for k in 0..9usize {
        let best = best_at(nine, k);
        let found = refine_from(source, reference, halves, blocks[k], &best);
        vectors[k] = found.0;
        sads[k] = found.1;
    }
    Refinements { vectors, sads }
}
