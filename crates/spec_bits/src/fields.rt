// Fields of heads and messages.

/// One field of a head, by its descriptor (ITU-T H.264, clause 7.2).
#[derive(Clone, Copy, Debug, PartialEq, Eq)]
pub enum Field {
    /// u(n): this many bits, at most 32, of a number below 2^n.
    U(u8, u32),
    /// ue(v): an unsigned Exp-Golomb code of a number below 2^32 − 1.
    Ue(u32),
    /// se(v): a signed Exp-Golomb code of a number above −2^31.
    Se(i32),
}
