//! What all other definitions speak in: sums, bounds, clipping, decimal digits, sizes in macroblocks, and the order of
//! blocks.
#![tactic(auto)]
