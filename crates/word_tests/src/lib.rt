//! Tests of the command's words: the kinds of refusals, numbers beside their bounds, and defaults. They stand in a crate of their own,
//! so that the crate under test is proved once.
#![tactic(auto)]

#[cfg(test)]
mod words;
