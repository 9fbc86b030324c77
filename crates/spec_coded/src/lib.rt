//! The record that the encoder makes of each macroblock of an I, P or B slice, behind those before it, as definitions.
#![tactic(auto)]
