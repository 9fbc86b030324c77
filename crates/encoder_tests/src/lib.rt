//! Tests of the commands over files.
#![tactic(auto)]

#[cfg(test)]
mod files;
