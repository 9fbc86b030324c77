// Blocks within rows.
ghost use Rattle.std.specs.Prelude.{◌≡◌, ◌≤◌, ◌<◌, ◌+◌, ◌*◌, ℕ, true, length, slice_index, slice_index_or};
ghost use Rattle.enc_tables.specs.Records.{no_motion};

use enc_tables::Motion;

// Whether two blocks move alike.
#[inline(always)]
fn is_same(a: &Motion, b: &Motion) -> bool
    ensures { result ≡ true → a.now ≡ b.now }
{
    *a == *b
}

/// The motion of 8x8 block `k` of a macroblock.
#[inline(always)]
pub fn motion_at(motion: &[Motion; 4], k: usize) -> Motion
    requires { k < 4 }
    ensures { result ≡ slice_index_or motion.now k no_motion }
{
    motion[k]
}

/// Whether the four 8x8 blocks of a macroblock move alike.
#[inline(always)]
pub fn is_one(motion: &[Motion; 4]) -> bool
    ensures { result ≡ true → (k : ℕ) → k < 4 → slice_index_or motion.now k no_motion ≡ slice_index_or motion.now 0 no_motion }
{
    let first = motion_at(motion, 0);
    for k in 1..4usize {
        let next = motion_at(motion, k);
        if !is_same(&next, &first) {
            return false;
        }
    }
    true
}

/// Puts a block of `S` columns and rows into rows of `wide` samples, with its first sample at column `x` of row `y`.
#[inline(always)]
pub fn put<const S: usize>(block: &[u8], x: usize, y: usize, wide: usize, out: &mut [u8])
    requires small { (S ≤ 8) × (wide ≤ 16) × (y ≤ 8) }
    requires columns { x + S ≤ wide }
    requires rows { (y + S) * wide ≤ length out.old }
    requires block { S * S ≤ length block.now }
    ensures long { length out.new ≡ length out.old }
    ensures inside { (i j : ℕ) → i < S → j < S → slice_index out.new ((y + j) * wide + (x + i)) ≡ slice_index block.now (j * S + i) }
    ensures others { (c r : ℕ) → c < wide → (x ≤ c → c < x + S → y ≤ r → r < y + S → ⊥) → slice_index out.new (r * wide + c) ≡ slice_index out.old (r * wide + c) }
{
    for j in 0..S {
        let from = (y + j) * wide + x;
        out[from..from + S].copy_from_slice(&block[j * S..j * S + S]);
    }
}

/// Makes all samples 0.
pub fn clear(out: &mut [u8])
    ensures { (i : ℕ) → slice_index out.new i ≡ 0 }
{
    out.fill(0);
}
