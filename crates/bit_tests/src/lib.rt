//! Tests of the arithmetic coder, of the contexts and strings of bins, and of units, against numbers that were worked
//! out by hand from ITU-T H.264. They stand in a crate of their own, so that the crates under test are proved once.
#![tactic(auto)]

#[cfg(test)]
mod arithmetic;
#[cfg(test)]
mod bins;
#[cfg(test)]
mod units;
