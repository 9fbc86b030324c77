// Noise from a number.
ghost use Rattle.std.specs.Prelude.{◌≡◌};
ghost use Rattle.film_maker.specs.Made.{next_state, noise_of};

// The generator's next state.
#[tactic(auto, unfolding(crate::specs::Made::next_state), using(crate::proofs::Numbers::mod_first))]
fn next_state(state: u64) -> u64
    ensures { result ≡ next_state state }
{
    state
        .wrapping_mul(6364136223846793005)
        .wrapping_add(1442695040888963407)
}

/// Eight rows of eight numbers.
pub(crate) fn noise(seed: u64) -> [u8; 64]
    ensures { result ≡ noise_of seed }
{
    let mut numbers = [0; 64];
    let mut state = seed;
    for k in 0..64 {
        state = next_state(state);
        numbers[k] = (state >> 56) as u8;
    }
    numbers
}
