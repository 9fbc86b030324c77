//! The contexts of the arithmetic coder, as definitions: what their states are where a slice starts, and which context
//! of an element is used, by the macroblocks at the left and above (ITU-T H.264, clauses 9.3.1.1 and 9.3.3.1.1).
#![tactic(auto)]
