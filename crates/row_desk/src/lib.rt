//! A desk hands the rows below a number out to any number of threads, each row once, and adds up a number that they
//! tally. Its two words are shared: the number of draws, and the total. What a thread knows of them is in its seat.
#![tactic(auto)]

ghost use Rattle.std.specs.Prelude.{◌≡◌, ◌<◌, ◌≤◌, ◌+◌, ◌^◌, ◌++◌, [], ◌∷◌, true, length, IfOk, IfSome, IfNone};
ghost use Rattle.row_desk.specs.Machine.{RuleHolds};

mod plays;
#[cfg(test)]
mod tests;
mod view;

use atomic_table::Table;
use plays::{Draws, Merges, RowRule, Splits, Tallies};
use std::alloc::{AllocError as OutOfMemory, Global};
pub use view::View;

/// Rows below a number, each of which is handed out once, and a total.
#[derive(Drop)]
pub struct Desk {
    table: Table<u8, View, u32, RowRule, Global>,
    rows: u32,
    ghost sized: { (table.shared.table_id.words ≡ 2) × (table.shared.table_id.slots ≡ 0) },
    ghost keyed: { table.shared.key ≡ rows },
    ghost few: { rows ≤ 65535 },
}

/// The right to draw and to tally, which a thread takes with it. It has no bytes.
#[derive(Drop)]
pub struct Seat {
    inner: atomic_table::Seat<u8, View>,
}

/// What a desk comes to.
#[derive(Clone, Copy, Debug, PartialEq, Eq, Drop)]
pub struct Closed {
    /// How many rows were drawn.
    pub drawn: u32,
    /// The sum of all that was tallied.
    pub total: u64,
}

impl Desk {
    ghost use Rattle.row_desk.specs.Desks.{IsOf, ClosesAll, rows_of, view_of};
    ghost use Rattle.row_desk.specs.Views.{after_tally, after_split, beside, first_view, merged};

    /// A desk of `rows` rows, at most 65,535, with its first seat. The only error is want of memory.
    pub fn open(alloc: Global, rows: u32) -> Result<(Desk, Seat), OutOfMemory>
        requires { rows ≤ 65535 }
        ensures rows { IfOk result (λ r. rows_of r.0 ≡ rows) }
        ensures own { IfOk result (λ r. IsOf r.0 r.1) }
        ensures first { IfOk result (λ r. view_of r.1 ≡ first_view rows) }
    {
        let (table, inner) = Table::of_words(alloc, [0, 0].as_slice(), &rows)?;
        Ok((Desk { table, rows }, Seat { inner }))
    }

    /// The next row that no seat has drawn, or None where all are drawn. A seat that has drawn None doesn't draw again,
    /// unless it has taken in a seat that hasn't.
    pub fn draw(&self, seat: Seat) -> (Option<u32>, Seat)
        requires own { IsOf self.now seat }
        requires live { (view_of seat).nones < (view_of seat).seats }
        ensures own { IsOf self.now result.1 }
        ensures some { IfSome result.0 (λ n. (n < rows_of self.now)
            × (view_of result.1 ≡ record (view_of seat) { rows = (view_of seat).rows ++ n ∷ [] })) }
        ensures none { IfNone result.0 (view_of result.1
            ≡ record (view_of seat) { nones = (view_of seat).nones + 1 }) }
    {
        let Seat { mut inner } = seat;
        let n = self.table.shared.fetch_add::<Draws>(&mut inner, 0, 1);
        if n < self.rows as u64 {
            (Some(n as u32), Seat { inner })
        } else {
            (None, Seat { inner })
        }
    }

    /// Adds a number to the total. What a seat tallies stays below 2^48.
    pub fn tally(&self, seat: Seat, n: u64) -> Seat
        requires own { IsOf self.now seat }
        requires live { 0 < (view_of seat).seats }
        requires small { (view_of seat).tally + n < 2 ^ 48 }
        ensures own { IsOf self.now result }
        ensures view { view_of result ≡ after_tally (view_of seat) n }
    {
        let Seat { mut inner } = seat;
        self.table.shared.fetch_add::<Tallies>(&mut inner, 1, n);
        Seat { inner }
    }

    /// An empty seat beside the first one, which may be split 65,535 times.
    pub fn split(&self, seat: Seat) -> (Seat, Seat)
        requires own { IsOf self.now seat }
        requires first { (view_of seat).first ≡ true }
        requires few { (view_of seat).splits < 65535 }
        ensures own { IsOf self.now result.0 × IsOf self.now result.1 }
        ensures views { (view_of result.0 ≡ after_split (view_of seat))
            × (view_of result.1 ≡ beside (view_of seat)) }
    {
        let Seat { mut inner } = seat;
        let new = self.table.shared.split_seat::<Splits>(&mut inner);
        (Seat { inner }, Seat { inner: new })
    }

    /// One seat of two: it has the rows and the tallies of both.
    pub fn merge(&self, a: Seat, b: Seat) -> Seat
        requires own { IsOf self.now a × IsOf self.now b }
        ensures own { IsOf self.now result }
        ensures view { view_of result ≡ merged (view_of a) (view_of b) }
    {
        let Seat { mut inner } = a;
        let Seat { inner: other } = b;
        self.table.shared.join_seat::<Merges>(&mut inner, other);
        Seat { inner }
    }

    /// How many rows were drawn, and the total. Where all seats are in the one that closes, these are its own, and its
    /// rows are those below `drawn`, each once; otherwise it has at most as many.
    pub fn close(self, seat: Seat) -> Closed
        requires own { IsOf self seat }
        ensures all { ClosesAll (rows_of self) (view_of seat) result }
        ensures some { (length (view_of seat).rows ≤ result.drawn)
            × ((view_of seat).tally ≤ result.total) }
        ensures few { result.drawn ≤ rows_of self }
    {
        let Desk { table, rows } = self;
        let Seat { inner } = seat;
        let closed = table.close_with(inner);
        let drawn = closed.word(0);
        let total = closed.word(1);
        closed.free();
        Closed {
            drawn: drawn.min(rows as u64) as u32,
            total,
        }
    }
}

/// The rule of a desk holds after any list of draws, tallies, splits and merges by any number of seats: the rows that
/// were handed out are those below a number, each once, and the total is the sum of all tallies.
pub fn rule_of_desks()
    ensures { RuleHolds }
{}
