// The states of the contexts of a slice.
ghost use Rattle.std.specs.Prelude.{◌≡◌, ◌≤◌, ◌<◌, ◌+◌, ◌*◌, ℕ, min, ℤ, pos, ◌*ℤ◌, ◌+ℤ◌, ◌-ℤ◌, ◌≤ℤ◌, length, slice_index_or};
ghost use Rattle.std.specs.Int.{int_shr};
ghost use Rattle.std.specs.Borrow.{sem};
ghost use Rattle.spec_contexts.specs.States.{no_state, AllKnown, pairs_of, clipped as clipped_of, pre_state as pre_state_of, state_at as state_of, start_state as start_state_of, start_states};
ghost use Rattle.cabac_contexts.specs.Lending.{LendsState};

use enc_tables::{CONTEXT_PAIRS_I, CONTEXT_PAIRS_PB, CtxState, SliceKind};

/// The states of the contexts of a slice.
#[derive(Clone, Copy)]
pub struct Contexts {
    /// By context number. The contexts 70 to 72 and 276 to 398, and in I slices 11 to 59, aren't used by slices of
    /// frames; they start from the pair 0, 0, as the state 62 of 0.
    pub states: [CtxState; 436],
}

impl Contexts {
    /// The states where a slice of this kind starts (ITU-T H.264, clause 9.3.1.1). `qp`, the slice's quantisation
    /// parameter, is at most 51.
    pub fn init(kind: SliceKind, qp: u8) -> Contexts
        requires { qp ≤ 51 }
        ensures states { result.states ≡ start_states (pairs_of kind) qp }
        ensures known { AllKnown result.states }
    {
        let states = started(pairs(kind), qp);
        Contexts { states }
    }
}

/// Lends the state of context `index` for writing; all other states stay. `states` are those of `Contexts`, and the
/// index is below their number.
#[inline]
pub fn state(states: &mut [CtxState], index: u16) -> &mut CtxState
    requires { index < length states.old }
    ensures* writes_back { sem 𝓛 (LendsState states.entry index result) }
    ensures value { result.now ≡ slice_index_or states.old index no_state }
{
    &mut states[index as usize]
}

// The pairs m, n of a slice's contexts.
fn pairs(kind: SliceKind) -> &'static [i8; 872]
    ensures { result.now ≡ pairs_of kind }
{
    match kind {
        SliceKind::I => &CONTEXT_PAIRS_I,
        SliceKind::P | SliceKind::B => &CONTEXT_PAIRS_PB,
    }
}

fn started(pairs: &[i8; 872], qp: u8) -> [CtxState; 436]
    requires { qp ≤ 51 }
    ensures states { result ≡ start_states pairs.now qp }
    ensures known { AllKnown result }
{
    let mut states = blank();
    for index in 0..436 {
        states[index] = start_state(pairs, index, qp);
    }
    states
}

fn blank() -> [CtxState; 436]
    ensures { AllKnown result }
{
    [CtxState {
        state: 0,
        mps: false,
    }; 436]
}

// The state of one context.
#[tactic(auto, unfolding(spec_contexts::specs::States::start_state))]
fn start_state(pairs: &[i8; 872], index: usize, qp: u8) -> CtxState
    requires index { index < 436 }
    requires qp { qp ≤ 51 }
    ensures value { result ≡ start_state_of pairs.now qp index }
    ensures known { result.state ≤ 63 }
{
    state_at(pre_state(pairs[2 * index], pairs[2 * index + 1], qp))
}

#[tactic(auto, unfolding(spec_contexts::specs::States::pre_state))]
fn pre_state(m: i8, n: i8, qp: u8) -> u8
    requires { qp ≤ 51 }
    ensures value { result ≡ pre_state_of m n qp }
    ensures least { 1 ≤ result }
    ensures most { result ≤ 126 }
{
    clipped(slope(m, qp) + n as i16)
}

fn slope(m: i8, qp: u8) -> i16
    requires { qp ≤ 51 }
    ensures value { result ≡ int_shr (m *ℤ pos (min 51 qp)) 4 }
    ensures low { (pos 0 -ℤ pos 408) ≤ℤ result }
    ensures high { result ≤ℤ pos 405 }
{
    sixteenth(m as i16 * qp as i16)
}

fn sixteenth(x: i16) -> i16
    ensures value { result ≡ int_shr x 4 }
    ensures low { x ≤ℤ ((pos 16 *ℤ result) +ℤ pos 15) }
    ensures high { (pos 16 *ℤ result) ≤ℤ x }
{
    x >> 4
}

fn clipped(x: i16) -> u8
    ensures value { result ≡ clipped_of x }
    ensures least { 1 ≤ result }
    ensures most { result ≤ 126 }
{
    if x < 1 {
        1
    } else if x > 126 {
        126
    } else {
        x as u8
    }
}

fn state_at(pre: u8) -> CtxState
    requires { pre ≤ 126 }
    ensures value { result ≡ state_of pre }
    ensures known { result.state ≤ 63 }
{
    if pre <= 63 {
        CtxState {
            state: 63 - pre,
            mps: false,
        }
    } else {
        CtxState {
            state: pre - 64,
            mps: true,
        }
    }
}
