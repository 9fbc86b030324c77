// The motion of skipped and direct macroblocks.
ghost use Rattle.std.specs.Prelude.{◌≡◌, ◌<◌, ℕ};
ghost use Rattle.spec_partitions.specs.Near.{View};
ghost use Rattle.spec_partitions.specs.Derived.{skip_motion, direct_motion};
ghost use Rattle.spec_partitions.specs.InRange.{AllFit};
ghost use Rattle.spec_partitions.specs.Small.{AllSmall};
ghost use Rattle.inter_coder.specs.Given.{IsBeside};
ghost use Rattle.inter_coder.specs.Beside.{BesideFits, BesideSmall};

use crate::fields::whole_field;
use crate::given::Beside;
use enc_tables::Motion;

/// The motion of P_Skip.
pub fn skip_motion(beside: &Beside<'_>) -> [Motion; 4]
    requires { BesideSmall 131 beside.now }
    ensures motion { (view : View) → IsBeside view beside.now → result ≡ skip_motion view }
    ensures fits { (entries0 entries1 : ℕ) → 0 < entries0 → AllFit entries0 entries1 result }
    ensures short { AllSmall 131 result }
{
    let field = whole_field(beside);
    let motion = motion_derive::skip_motion(&field);
    [motion; 4]
}

/// Direct motion. `colocated` is the motion of the blocks in the same place of list 1's first picture; none in an intra macroblock.
pub fn direct_motion(beside: &Beside<'_>, colocated: &[Option<Motion>; 4]) -> [Motion; 4]
    requires { BesideSmall 131 beside.now }
    ensures motion { (view : View) → IsBeside view beside.now → view.colocated ≡ colocated.now → result ≡ direct_motion view }
    ensures fits { (entries0 entries1 : ℕ) → 0 < entries0 → 0 < entries1 → BesideFits entries0 entries1 beside.now → AllFit entries0 entries1 result }
    ensures short { AllSmall 131 result }
{
    let field = whole_field(beside);
    motion_derive::direct_motion(&field, colocated)
}
