// A picture's macroblocks and a macroblock's blocks, counted.
ghost use Rattle.std.specs.Prelude.{◌≡◌, ◌<◌, ◌≤◌};
ghost use Rattle.spec_basics.specs.Blocks.{block_number as block_number_of};
ghost use Rattle.spec_basics.specs.Sizes.{in_macroblocks as in_macroblocks_of};

/// How many macroblocks cover this many samples.
#[inline]
pub fn in_macroblocks(samples: u32) -> u32
    requires { samples ≤ 65536 }
    ensures { result ≡ in_macroblocks_of samples }
{
    (samples + 15) / 16
}

/// The number of the 4x4 block in this column and row of a macroblock, in decoding order (ITU-T H.264, clause 6.4.3).
#[inline(always)]
pub fn block_number(column: usize, row: usize) -> usize
    requires column { column < 4 }
    requires row { row < 4 }
    ensures value { result ≡ block_number_of column row }
    ensures most { result < 16 }
{
    8 * (row / 2) + 4 * (column / 2) + 2 * (row % 2) + column % 2
}
