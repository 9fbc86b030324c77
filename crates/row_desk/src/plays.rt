// The rule of a desk, and what its steps tell.
ghost use Rattle.std.specs.Prelude.{◌≡◌};
ghost use Rattle.row_desk.specs.Rule.{Holds};
ghost use Rattle.row_desk.specs.Views.{after_draw, after_split, after_tally, beside, first_view, merged, spent};

use crate::view::View;
use atomic_table::{Join, Play, Split, TableRule};

/// Keeps the rule of a desk between any two steps.
pub struct RowRule;

impl TableRule<u8, View, u32> for RowRule {
    ghost holds = { λ rows s. Holds rows s };

    ghost first = { first_view };
}

/// One more draw: the seat has the row, or one None more.
pub struct Draws;

impl Play<u8, View> for Draws {
    ghost then = { λ st old n new. new ≡ (after_draw old.0 n, old.1) };
}

/// A number is added to the total and to the seat.
pub struct Tallies;

impl Play<u8, View> for Tallies {
    ghost then = { λ st old n new. new ≡ (after_tally old.0 st.first, old.1) };
}

/// A new seat beside the first.
pub struct Splits;

impl Split<View> for Splits {
    ghost left = { after_split };

    ghost right = { beside };
}

/// A seat that takes in another.
pub struct Merges;

impl Join<View> for Merges {
    ghost both = { merged };

    ghost spent = { spent };
}
