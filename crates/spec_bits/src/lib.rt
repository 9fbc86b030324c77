//! Bits, fields and units of a stream, as definitions, and the type of a field.
#![tactic(auto)]

mod fields;

pub use fields::Field;
