// One pass over a list of sums.
ghost use Rattle.std.specs.Prelude.{◌≡◌, ◌≤◌, ◌<◌, ◌+◌, ◌*◌, ℕ, length, slice_index};
ghost use Rattle.block_sums.specs.Passes.{AtMost, AddedAhead, EightAhead, SquareAhead};

// Adds to each item the one that stands `ahead` places behind it, where there is one.
fn add_ahead(sums: &mut [u16], ahead: usize)
    requires ahead { 0 < ahead }
    requires low { AtMost 32767 sums.old }
    ensures value { AddedAhead ahead sums.old sums.new }
    ensures most { (b : ℕ) → b ≤ 32767 → AtMost b sums.old → AtMost (2 * b) sums.new }
{
    for i in 0..sums.len().saturating_sub(ahead) {
        sums[i] += sums[i + ahead];
    }
}

// Makes the items those of `samples`, which are as many.
fn widen(sums: &mut [u16], samples: &[u8])
    requires { length samples.now ≡ length sums.old }
    ensures { sums.new ≡ samples.now }
{
    for i in 0..samples.len() {
        sums[i] = samples[i] as u16;
    }
}

// Makes each item the sum of the eight that stand `ahead` places apart from its place on, where there are so many.
fn add_eight(sums: &mut [u16], ahead: usize)
    requires ahead { (0 < ahead) × (ahead ≤ 65536) }
    requires low { AtMost 4095 sums.old }
    ensures value { EightAhead ahead sums.old sums.new }
    ensures most { (b : ℕ) → b ≤ 4095 → AtMost b sums.old → AtMost (8 * b) sums.new }
{
    add_ahead(sums, ahead);
    add_ahead(sums, 2 * ahead);
    add_ahead(sums, 4 * ahead);
}

// Makes each item the sum of the 8x8 samples from its place on, in rows of `width`, where there are so many.
pub fn add_squares(sums: &mut [u16], samples: &[u8], width: usize)
    requires same { length samples.now ≡ length sums.old }
    requires width { (0 < width) × (width ≤ 65536) }
    ensures { SquareAhead width samples.now sums.new }
{
    widen(sums, samples);
    add_eight(sums, 1);
    add_eight(sums, width);
}
