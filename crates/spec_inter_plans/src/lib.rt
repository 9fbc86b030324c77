//! What the encoder plans for macroblocks of P and B slices, as definitions: the motion of least cost of each of nine
//! partitions, and how many vectors are compared; with the laws that a search can find nothing else, and that vectors
//! stay near their windows.
#![tactic(auto)]

ghost use Rattle.std.specs.Prelude.{◌≡◌, ℕ, ◌+◌, ◌*◌, ℤ};
ghost use Rattle.std.specs.List.{sum_by};
ghost use Rattle.enc_tables.specs.declared.records.Vector.{Vector};
ghost use Rattle.spec_film.specs.Films.{Planes};
ghost use Rattle.spec_partitions.specs.Small.{Small};
ghost use Rattle.spec_search.specs.declared.Block.{Block};
ghost use Rattle.spec_search.specs.Window.{cost_of, IsWindowBest};
ghost use Rattle.spec_search.specs.Refine.{in_quarters, IsRefined};
ghost use Rattle.spec_inter_plans.specs.Found.{window_best, refined, IsBestVector};
ghost use Rattle.spec_inter_plans.specs.InterPlans.{Search, own_luma, luma_of, moved_sample, difference_of, found, nine_compared, parts_compared};

/// A window has one best vector: the first of least cost in the order of the scan, which is found.
pub fn windows_have_one_best()
    ensures found { (cost : ℤ → ℤ → ℕ) (range : ℕ) → IsBestVector cost range (window_best cost range) }
    ensures only { (cost : ℤ → ℤ → ℕ) (range : ℕ) (dx dy : ℤ) (size : ℕ) → IsWindowBest cost range dx dy size → window_best cost range ≡ in_quarters dx dy }
{}

/// A whole-sample vector has one refinement to quarter samples, which is found.
pub fn refinements_have_one_result()
    ensures found { (cost : Vector → ℕ) (dx dy : ℤ) → IsRefined cost dx dy (refined cost (in_quarters dx dy)).vector (refined cost (in_quarters dx dy)).size }
    ensures only { (cost : Vector → ℕ) (dx dy : ℤ) (best : Vector) (size : ℕ) → IsRefined cost dx dy best size → refined cost (in_quarters dx dy) ≡ record { vector = best; size = size } }
{}

/// What a search and its refinement find for a block in a reference is the plan's: its cost is that of its vector, and
/// no vector of it is longer than the window's with three quarter samples more.
pub fn searches_find_the_plan()
    ensures only { (s : Search) (block : Block) (p : Planes) (dx dy : ℤ) (least : ℕ) (v : Vector) (size : ℕ) → IsWindowBest (cost_of (own_luma s) (luma_of s p) block) s.range dx dy least
        → IsRefined (λ w. difference_of s block (moved_sample s block p w)) dx dy v size → found s block p ≡ record { vector = v; size = size } }
    ensures size { (s : Search) (block : Block) (p : Planes) → (found s block p).size ≡ difference_of s block (moved_sample s block p (found s block p).vector) }
    ensures near { (s : Search) (block : Block) (p : Planes) → Small (4 * s.range + 3) (found s block p).vector }
{}

/// The vectors that are compared for a macroblock are those that one search of all nine partitions compares in each
/// picture of both lists, added up.
pub fn comparisons_add_up()
    ensures { (s : Search) (x : ℕ) (y : ℕ) → parts_compared s x y ≡ sum_by (nine_compared s x y) s.sources.list0 + sum_by (nine_compared s x y) s.sources.list1 }
{}
