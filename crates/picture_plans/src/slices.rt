// Rows of macroblocks, shared out among slices.
ghost use Rattle.std.specs.Prelude.{◌≡◌, ◌≤◌, ◌<◌, ◌+◌, ◌*◌, ◌/◌, ℕ};
ghost use Rattle.picture_plans.specs.Planned.{row_at};

/// The first row of slice `k` of a picture of so many slices and rows of macroblocks; where `k` is the number of
/// slices, the number of rows.
pub fn slice_start(k: u32, slices: u32, down: u32) -> u32
    requires some { 0 < slices }
    requires slice { k ≤ slices }
    requires slices { slices ≤ down }
    requires down { down ≤ 144 }
    ensures value { result ≡ row_at slices down k }
    ensures within { result ≤ down }
    ensures some { k < slices → result < row_at slices down (k + 1) }
    ensures last { k ≡ slices → result ≡ down }
{
    k * down / slices
}
