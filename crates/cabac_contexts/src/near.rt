// The macroblocks and blocks at the left and above (ITU-T H.264, clauses 6.4.11 and 6.4.12).
ghost use Rattle.std.specs.Prelude.{◌≡◌, ◌==◌, ◌<◌, ◌≤◌, if◌then◌else◌};
ghost use Rattle.spec_contexts.specs.Near.{pointed, left_holder2, above_holder2, left_holder4, above_holder4, left_block2 as left2_of, above_block2 as above2_of, left_block4 as left4_of, above_block4 as above4_of};
ghost use Rattle.spec_basics.specs.Blocks.{block_column, block_row};

use enc_tables::MbRecord;

// For each 4x4 luma block the number of the block at its left, in the macroblock that holds it.
const LEFT4: [u8; 16] = [5, 0, 7, 2, 1, 4, 3, 6, 13, 8, 15, 10, 9, 12, 11, 14];

// For each 4x4 luma block the number of the block above it, in the macroblock that holds it.
const ABOVE4: [u8; 16] = [10, 11, 0, 1, 14, 15, 4, 5, 2, 3, 8, 9, 6, 7, 12, 13];

/// The number of the 4x4 luma block at the left of `block`, in the macroblock that holds it.
#[inline]
pub fn left_block4(block: u8) -> u8
    requires { block ≤ 15 }
    ensures value { result ≡ left4_of block }
    ensures inside { result ≤ 15 }
{
    LEFT4[block as usize]
}

/// The number of the 4x4 luma block above `block`, in the macroblock that holds it.
#[inline]
pub fn above_block4(block: u8) -> u8
    requires { block ≤ 15 }
    ensures value { result ≡ above4_of block }
    ensures inside { result ≤ 15 }
{
    ABOVE4[block as usize]
}

/// The number of the 8x8 luma block at the left of `block`, in the macroblock that holds it.
#[inline]
pub fn left_block2(block: u8) -> u8
    requires { block ≤ 3 }
    ensures value { result ≡ left2_of block }
    ensures inside { result ≤ 3 }
{
    block ^ 1
}

/// The number of the 8x8 luma block above `block`, in the macroblock that holds it.
#[inline]
pub fn above_block2(block: u8) -> u8
    requires { block ≤ 3 }
    ensures value { result ≡ above2_of block }
    ensures inside { result ≤ 3 }
{
    block ^ 2
}

/// The macroblock that holds the block at the left of `block` of `mb`; two blocks stand in a row.
#[inline]
pub fn left_of2<'a>(mb: &'a MbRecord, left: Option<&'a MbRecord>, block: u8) -> Option<&'a MbRecord>
    requires { block ≤ 3 }
    ensures { pointed result ≡ left_holder2 mb.now (pointed left.entry) block }
{
    if block & 1 == 0 { left } else { Some(mb) }
}

/// The macroblock that holds the block above `block` of `mb`.
#[inline]
pub fn above_of2<'a>(
    mb: &'a MbRecord,
    above: Option<&'a MbRecord>,
    block: u8,
) -> Option<&'a MbRecord>
    requires { block ≤ 3 }
    ensures { pointed result ≡ above_holder2 mb.now (pointed above.entry) block }
{
    if block < 2 { above } else { Some(mb) }
}

// Whether a 4x4 luma block stands in the macroblock's left column.
#[inline]
fn is_leftmost4(block: u8) -> bool
    requires { block ≤ 15 }
    ensures { result ≡ (block_column block == 0) }
{
    block & 5 == 0
}

// Whether a 4x4 luma block stands in the macroblock's upper row.
#[inline]
fn is_upmost4(block: u8) -> bool
    requires { block ≤ 15 }
    ensures { result ≡ (block_row block == 0) }
{
    block & 10 == 0
}

/// The macroblock that holds the 4x4 luma block at the left of `block` of `mb`; four blocks stand in a row.
#[inline]
pub fn left_of4<'a>(mb: &'a MbRecord, left: Option<&'a MbRecord>, block: u8) -> Option<&'a MbRecord>
    requires { block ≤ 15 }
    ensures { pointed result ≡ left_holder4 mb.now (pointed left.entry) block }
{
    if is_leftmost4(block) { left } else { Some(mb) }
}

/// The macroblock that holds the 4x4 luma block above `block` of `mb`.
#[inline]
pub fn above_of4<'a>(
    mb: &'a MbRecord,
    above: Option<&'a MbRecord>,
    block: u8,
) -> Option<&'a MbRecord>
    requires { block ≤ 15 }
    ensures { pointed result ≡ above_holder4 mb.now (pointed above.entry) block }
{
    if is_upmost4(block) { above } else { Some(mb) }
}
