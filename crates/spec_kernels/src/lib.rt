//! Plain sums over rows and blocks of samples, as definitions: what the lane kernels compute.
#![tactic(auto)]

ghost use Rattle.spec_kernels.specs.Sums.{BoundBelow, BoundAdds};

/// The difference of two blocks is at least as large as the difference of their sums, and the bound by parts, put
/// together of the parts' bounds, is at most the sum of the parts' differences.
#[tactic(auto, using(crate::proofs::SumLaws::bound_below, crate::proofs::SumLaws::bound_adds))]
pub fn difference_laws()
    ensures below { BoundBelow }
    ensures adds { BoundAdds }
{}
