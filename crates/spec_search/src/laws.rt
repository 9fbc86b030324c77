// Laws of the definitions.

ghost use Rattle.spec_search.specs.Scan.{ScanOrder};

/// The scan's places are exactly the vectors of the window, each once: by the greater of the two sizes, then from above
/// to below, then from left to right.
#[tactic(auto, using(crate::proofs::Ranks::scan_order))]
pub fn scan_law()
    ensures { ScanOrder }
{}
