// What the syntax says of levels: which parts of a macroblock have some.
ghost use Rattle.std.specs.Prelude.{◌≡◌, ◌++◌, ℕ, length, slice_range};
ghost use Rattle.spec_reconstruction.specs.Records.{bit_if, chroma_pattern, luma_pattern};
ghost use Rattle.spec_contexts.specs.Increments.{some_level};

/// Whether a level isn't 0.
#[inline(always)]
pub fn some_level(levels: &[i16]) -> bool
    ensures { result ≡ some_level levels.now }
{
    levels.iter().any(|level| *level != 0)
}

/// A number where something is, and 0 where it isn't.
#[inline(always)]
pub fn bit_if(is: bool, bit: u8) -> u8
    ensures { result ≡ bit_if is bit }
{
    if is { bit } else { 0 }
}

/// A bit for each 8x8 block of a macroblock's luma levels that has a level.
#[inline(always)]
#[tactic(auto, unfolding(spec_reconstruction::specs::Records::luma_pattern))]
pub fn luma_pattern(luma: &[i16; 256]) -> u8
    ensures { result ≡ luma_pattern luma.now }
{
    let first = bit_if(some_level(&luma[0..64]), 1);
    let second = bit_if(some_level(&luma[64..128]), 2);
    let third = bit_if(some_level(&luma[128..192]), 4);
    let fourth = bit_if(some_level(&luma[192..256]), 8);
    first + second + third + fourth
}

/// 0 where no chroma level is, 1 where DC levels alone are, 2 where AC levels are.
#[inline(always)]
#[tactic(auto, unfolding(spec_reconstruction::specs::Records::chroma_pattern))]
pub fn chroma_pattern(dc: &[i16; 8], ac: &[i16; 120]) -> u8
    ensures { result ≡ chroma_pattern dc.now ac.now }
{
    if some_level(ac) {
        2
    } else {
        bit_if(some_level(dc), 1)
    }
}

/// The DC levels of both components, one behind the other.
#[inline(always)]
pub fn both_dc(cb: &[i16; 4], cr: &[i16; 4]) -> [i16; 8]
    ensures { result ≡ cb.now ++ cr.now }
{
    let mut both = [0i16; 8];
    both[..4].copy_from_slice(cb);
    both[4..].copy_from_slice(cr);
    both
}

/// The AC levels of both components, one behind the other.
#[inline(always)]
pub fn both_ac(cb: &[i16; 60], cr: &[i16; 60]) -> [i16; 120]
    ensures { result ≡ cb.now ++ cr.now }
{
    let mut both = [0i16; 120];
    both[..60].copy_from_slice(cb);
    both[60..].copy_from_slice(cr);
    both
}
