// What a seat knows.
use std::collections::LinkedList;

/// What a seat of a desk knows, and the seats that it took in. No value of it is made.
pub struct View {
    /// How many rows the desk has.
    pub limit: u64,
    /// The rows that it drew.
    pub rows: LinkedList<u64>,
    /// How often it drew none.
    pub nones: u64,
    /// The sum of what it tallied.
    pub tally: u64,
    /// Whether it is the seat that the desk was opened with.
    pub first: bool,
    /// How often it was split.
    pub splits: u64,
    /// How many seats are in it: 1, and those that it took in. A seat that another took in has none.
    pub seats: u64,
}
