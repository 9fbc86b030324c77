// Where the blocks of a macroblock stand.
ghost use Rattle.std.specs.Prelude.{◌≡◌, ◌<◌, ◌+◌, ◌*◌, ◌/◌, ◌%◌};
ghost use Rattle.spec_basics.specs.Blocks.{block_column, block_row};

/// The column of 4x4 block `b` in its macroblock, in blocks (ITU-T H.264, clause 6.4.3).
#[inline(always)]
pub fn block_column(b: u32) -> u32
    ensures value { result ≡ block_column b }
    ensures small { result < 4 }
{
    2 * (b / 4 % 2) + b % 2
}

/// The row of 4x4 block `b` in its macroblock, in blocks.
#[inline(always)]
pub fn block_row(b: u32) -> u32
    requires { b < 16 }
    ensures value { result ≡ block_row b }
    ensures small { result < 4 }
{
    2 * (b / 8) + b / 2 % 2
}
