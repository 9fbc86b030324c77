// The mode that costs least.
ghost use Rattle.std.specs.Prelude.{◌≡◌, ◌≤◌, ◌<◌, ◌^◌, ℕ, Bool, true, cond};
ghost use Rattle.enc_tables.specs.Choice.{lesser};
ghost use Rattle.spec_choice.specs.Modes.{best_mode, cost_of_mode, with_cost};

use spec_choice::ModeCost;

/// What the modes of a block cost.
pub trait Costs {
    ghost count: { Self → ℕ };

    ghost bound: { Self → ℕ };

    ghost allowed_at: { Self → ℕ → Bool };

    ghost cost_at: { Self → ℕ → ℕ };

    /// Whether the block may have the mode.
    fn is_allowed(&self, mode: u8) -> bool
        ensures { result ≡ allowed_at self.now mode };

    /// The sum of absolute differences of the block and its prediction.
    fn cost(&self, mode: u8) -> u32
        requires { mode < count self.now }
        ensures value { result ≡ cost_at self.now mode }
        ensures small { result ≤ bound self.now };
}

#[inline(always)]
#[tactic(auto, unfolding(enc_tables::specs::Choice::lesser))]
fn better(best: ModeCost, mode: u8, cost: u32) -> ModeCost
    ensures value { result ≡ lesser cost_of_mode best (record { mode = mode; cost = cost }) }
    ensures most { result.cost ≤ best.cost }
    ensures small { result.cost ≤ cost }
{
    if cost < best.cost {
        ModeCost { mode, cost }
    } else {
        best
    }
}

// The best so far, where one mode more is tried.
#[inline(always)]
fn tried<C: Costs>(costs: &C, best: ModeCost, mode: u8) -> ModeCost
    requires { mode < C.count costs.now }
    ensures value { result ≡ cond (C.allowed_at costs.now mode) (lesser cost_of_mode best (with_cost (C.cost_at costs.now) mode)) best }
    ensures most { result.cost ≤ best.cost }
    ensures small { C.allowed_at costs.now mode ≡ true → result.cost ≤ C.bound costs.now }
{
    if costs.is_allowed(mode) {
        better(best, mode, costs.cost(mode))
    } else {
        best
    }
}

/// Of the modes below `count` the first that is allowed and costs least.
#[inline(always)]
pub fn least<C: Costs>(costs: &C, count: u8) -> ModeCost
    requires { count ≤ C.count costs.now }
    ensures value { result ≡ best_mode count (C.allowed_at costs.now) (C.cost_at costs.now) }
    ensures small { (m : ℕ) → m < count → C.allowed_at costs.now m ≡ true → result.cost ≤ C.bound costs.now }
{
    let mut best = ModeCost {
        mode: 0,
        cost: 1 << 24,
    };
    for mode in 0..count {
        best = tried(costs, best, mode);
    }
    best
}
