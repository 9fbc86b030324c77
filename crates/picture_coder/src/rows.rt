// Rows of macroblocks, shared out among slices.
ghost use Rattle.std.specs.Prelude.{◌≡◌, ◌≤◌, ◌<◌, ◌+◌, ◌*◌, ℕ};
ghost use Rattle.picture_plans.specs.Planned.{row_at};

use picture_plans::slice_start;

/// The rows of slice `slice`: the first one, and the one behind the last.
pub fn rows_of(slice: u32, slices: u32, down: u32) -> (u32, u32)
    requires slice { slice < slices }
    requires slices { slices ≤ down }
    requires down { down ≤ 144 }
    ensures first { result.0 ≡ row_at slices down slice }
    ensures end { result.1 ≡ row_at slices down (slice + 1) }
    ensures some { result.0 < result.1 }
    ensures within { result.1 ≤ down }
{
    (
        slice_start(slice, slices, down),
        slice_start(slice + 1, slices, down),
    )
}

/// The macroblocks of rows, as rows are told: the first one, and the one behind the last. A row has `across`
/// macroblocks.
pub fn macroblocks_of(rows: (u32, u32), across: u32) -> (usize, usize)
    requires order { rows.0 ≤ rows.1 }
    requires down { rows.1 ≤ 144 }
    requires across { across ≤ 256 }
    ensures from { result.0 ≡ rows.0 * across }
    ensures to { result.1 ≡ rows.1 * across }
    ensures order { result.0 ≤ result.1 }
    ensures within { (down : ℕ) → rows.1 ≤ down → result.1 ≤ down * across }
{
    ((rows.0 * across) as usize, (rows.1 * across) as usize)
}
