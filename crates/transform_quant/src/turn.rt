// Writing lines of a block as columns.
ghost use Rattle.std.specs.Prelude.{◌≡◌, ◌≢◌, ◌<◌, ◌+◌, ◌*◌, ℕ, length};
ghost use Rattle.spec_residual.specs.Blocks.{item};

use whole_numbers::Whole;

// Writes a line into column i.
#[inline(always)]
pub fn put_column4(out: &mut [Whole; 16], i: usize, line: [Whole; 4])
    requires { i < 4 }
    ensures length { length out.new ≡ 16 }
    ensures column { (b : ℕ) → b < 4 → item out.new (4 * b + i) ≡ item line b }
    ensures others { (a b : ℕ) → a < 4 → b < 4 → a ≢ i → item out.new (4 * b + a) ≡ item out.old (4 * b + a) }
{
    for j in 0..4usize {
        out[4 * j + i] = line[j];
    }
}

// Writes a line into column i.
#[inline(always)]
pub fn put_column8(out: &mut [Whole; 64], i: usize, line: [Whole; 8])
    requires { i < 8 }
    ensures length { length out.new ≡ 64 }
    ensures column { (b : ℕ) → b < 8 → item out.new (8 * b + i) ≡ item line b }
    ensures others { (a b : ℕ) → a < 8 → b < 8 → a ≢ i → item out.new (8 * b + a) ≡ item out.old (8 * b + a) }
{
    for j in 0..8usize {
        out[8 * j + i] = line[j];
    }
}
