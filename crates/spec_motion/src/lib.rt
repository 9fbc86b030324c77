//! Motion that isn't written but derived from neighbouring blocks, as definitions (ITU-T H.264, clause 8.4.1), and the
//! neighbours that they speak of.
#![tactic(auto)]

use enc_tables::Motion;

/// The motion of the blocks beside a partition (clause 8.4.1.3.2). `None` is a block that isn't available; an intra
/// block is there and uses neither list.
#[derive(Clone, Copy)]
pub struct Field {
    /// At the left (A).
    pub a: Option<Motion>,
    /// Above (B).
    pub b: Option<Motion>,
    /// Above at the right (C); where that one isn't available, above at the left (D).
    pub c: Option<Motion>,
}
