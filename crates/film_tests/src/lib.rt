//! Tests of the outside, of planes, of films and of the report: what no clause says, and texts that were written down from their
//! formats. They stand in a crate of their own, so that the crates under test are proved once.
#![tactic(auto)]

#[cfg(test)]
mod films;
#[cfg(test)]
mod made;
#[cfg(test)]
mod planes;
#[cfg(test)]
mod report;
#[cfg(test)]
mod studios;
