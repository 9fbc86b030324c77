//! Tests of the macroblock tools against numbers that were computed by hand or by another program: transforms and
//! quantiser, prediction and plans, motion, sums and differences. They stand in a crate of their own, so that the
//! crates under test are proved once, and the tables of numbers aren't read where the calls are proved.
#![tactic(auto)]

#[cfg(test)]
mod every_parameter;
#[cfg(test)]
mod inter_plans;
#[cfg(test)]
mod intra;
#[cfg(test)]
mod motion;
#[cfg(test)]
mod sums;
#[cfg(test)]
mod table;
#[cfg(test)]
mod transforms;
#[cfg(test)]
mod vectors;
