// Rows of half samples, made from rows of samples.
ghost use Rattle.std.specs.Prelude.{◌≡◌, ◌≤◌, ◌<◌, ◌+◌, ◌-◌, ◌*◌, ℕ, min, pos, ◌+ℤ◌, length, slice_index};
ghost use Rattle.spec_inter.specs.Taps.{mean, half, tap};
ghost use Rattle.subpel_filter.specs.Rows.{HalvesOf, RawsOf, RawDown, AreRaw, half_down, half_at, middle, middle_down, middle_across, ended};

// The half sample of six samples in a row. The difference never wraps: below 0 it is clipped to 0.
#[inline(always)]
fn half_of(a: u8, b: u8, c: u8, d: u8, e: u8, f: u8) -> u8
    ensures { result ≡ half (tap (pos a) (pos b) (pos c) (pos d) (pos e) (pos f)) }
{
    let up = a as u16 + 20 * (c as u16 + d as u16) + f as u16 + 16;
    let down = 5 * (b as u16 + e as u16);
    (up.saturating_sub(down) / 32).min(255) as u8
}

// The taps, not rounded, with 2550 added.
#[inline(always)]
fn raw_of(a: u8, b: u8, c: u8, d: u8, e: u8, f: u8) -> u16
    ensures value { pos result ≡ tap (pos a) (pos b) (pos c) (pos d) (pos e) (pos f) +ℤ pos 2550 }
    ensures most { result ≤ 13260 }
{
    let up = a as u16 + 20 * (c as u16 + d as u16) + f as u16 + 2550;
    let down = 5 * (b as u16 + e as u16);
    up - down
}

// The half sample of six taps that aren't rounded.
#[inline(always)]
fn middle_of(a: u16, b: u16, c: u16, d: u16, e: u16, f: u16) -> u8
    requires low { (a ≤ 13260) × (b ≤ 13260) × (c ≤ 13260) }
    requires high { (d ≤ 13260) × (e ≤ 13260) × (f ≤ 13260) }
    ensures { result ≡ middle a b c d e f }
{
    let (outer, near, inner) = (a + f, b + e, c + d);
    let up = outer as u32 + 20 * inner as u32 + 512;
    let down = 5 * near as u32 + 81600;
    (up.saturating_sub(down) / 1024).min(255) as u8
}

// A row as it is.
#[inline(always)]
pub fn copied(a: &[u8], out: &mut [u8])
    requires { length a.now ≡ length out.old }
    ensures list { out.new ≡ a.now }
    ensures value { (i : ℕ) → i < length out.old → slice_index out.new i ≡ slice_index a.now i }
{
    out.copy_from_slice(a);
}

// A row of samples by value: what is made of it can be written without regard to where it stands.
#[inline(always)]
pub fn taken<const W: usize>(a: &[u8]) -> [u8; W]
    requires { length a.now ≡ W }
    ensures len { length result ≡ W }
    ensures value { (i : ℕ) → i < W → slice_index result i ≡ slice_index a.now i }
{
    let mut row = [0u8; W];
    row.copy_from_slice(a);
    row
}

// The half samples along a row.
#[inline(always)]
pub fn halves<const W: usize>(a: &[u8]) -> [u8; W]
    requires { length a.now ≡ W + 5 }
    ensures { HalvesOf a.now result W }
{
    let mut row = [0u8; W];
    for i in 0..W {
        row[i] = half_of(a[i], a[i + 1], a[i + 2], a[i + 3], a[i + 4], a[i + 5]);
    }
    row
}

// The taps along a row, not rounded.
#[inline(always)]
pub fn raws(a: &[u8], out: &mut [u16])
    requires { length a.now ≡ length out.old + 5 }
    ensures { RawsOf a.now out.new (length out.old) }
{
    for i in 0..out.len() {
        out[i] = raw_of(a[i], a[i + 1], a[i + 2], a[i + 3], a[i + 4], a[i + 5]);
    }
}

// The half samples down six rows.
#[inline(always)]
pub fn halves_down<const W: usize>(
    a: &[u8],
    b: &[u8],
    c: &[u8],
    d: &[u8],
    e: &[u8],
    f: &[u8],
) -> [u8; W]
    requires first { (length a.now ≡ W) × (length b.now ≡ W) × (length c.now ≡ W) }
    requires last { (length d.now ≡ W) × (length e.now ≡ W) × (length f.now ≡ W) }
    ensures { (i : ℕ) → i < W → slice_index result i ≡ half_down a.now b.now c.now d.now e.now f.now i }
{
    let mut row = [0u8; W];
    for i in 0..W {
        row[i] = half_of(a[i], b[i], c[i], d[i], e[i], f[i]);
    }
    row
}

// The half samples down six rows of taps that aren't rounded.
#[inline(always)]
pub fn middles<const W: usize>(
    a: &[u16],
    b: &[u16],
    c: &[u16],
    d: &[u16],
    e: &[u16],
    f: &[u16],
) -> [u8; W]
    requires first { (length a.now ≡ W) × (length b.now ≡ W) × (length c.now ≡ W) }
    requires last { (length d.now ≡ W) × (length e.now ≡ W) × (length f.now ≡ W) }
    requires low { AreRaw a.now W × AreRaw b.now W × AreRaw c.now W }
    requires high { AreRaw d.now W × AreRaw e.now W × AreRaw f.now W }
    ensures { (i : ℕ) → i < W → slice_index result i ≡ middle_down a.now b.now c.now d.now e.now f.now i }
{
    let mut row = [0u8; W];
    for i in 0..W {
        row[i] = middle_of(a[i], b[i], c[i], d[i], e[i], f[i]);
    }
    row
}

// The means with another block's first `count` samples.
#[inline(always)]
pub fn averaged(a: &[u8; 256], count: usize, out: &mut [u8; 256])
    requires { count ≤ 256 }
    ensures { (k : ℕ) → k < count → slice_index out.new k ≡ mean (slice_index out.old k) (slice_index a.now k) }
{
    for i in 0..count {
        out[i] = ((out[i] as u16 + a[i] as u16 + 1) / 2) as u8;
    }
}

// The means of two rows.
#[inline(always)]
pub fn means<const W: usize>(a: &[u8], b: &[u8]) -> [u8; W]
    requires { (length a.now ≡ W) × (length b.now ≡ W) }
    ensures len { length result ≡ W }
    ensures value { (i : ℕ) → i < W → slice_index result i ≡ mean (slice_index a.now i) (slice_index b.now i) }
{
    let mut row = [0u8; W];
    for i in 0..W {
        row[i] = ((a[i] as u16 + b[i] as u16 + 1) / 2) as u8;
    }
    row
}

// WHOLE ROWS OF A BUFFER

// A row with two samples more before it and three after it: those at its ends.
pub fn widened(row: &[u8], line: &mut [u8])
    requires some { 0 < length row.now }
    requires room { length line.old ≡ length row.now + 5 }
    ensures { (i : ℕ) → i < length line.old → slice_index line.new i ≡ slice_index row.now (ended (length row.now) i) }
{
    let width = row.len();
    line[..2].fill(row[0]);
    line[2..width + 2].copy_from_slice(row);
    line[width + 2..].fill(row[width - 1]);
}

// The half samples along a row.
pub fn halves_along(a: &[u8], out: &mut [u8])
    requires { length a.now ≡ length out.old + 5 }
    ensures { HalvesOf a.now out.new (length out.old) }
{
    for i in 0..out.len() {
        out[i] = half_of(a[i], a[i + 1], a[i + 2], a[i + 3], a[i + 4], a[i + 5]);
    }
}

// The half samples down six rows.
pub fn halves_below(a: &[u8], b: &[u8], c: &[u8], d: &[u8], e: &[u8], f: &[u8], out: &mut [u8])
    requires first { (length a.now ≡ length out.old) × (length b.now ≡ length out.old) × (length c.now ≡ length out.old) }
    requires last { (length d.now ≡ length out.old) × (length e.now ≡ length out.old) × (length f.now ≡ length out.old) }
    ensures { (i : ℕ) → i < length out.old → slice_index out.new i ≡ half_down a.now b.now c.now d.now e.now f.now i }
{
    for i in 0..out.len() {
        out[i] = half_of(a[i], b[i], c[i], d[i], e[i], f[i]);
    }
}

// The taps down six rows, not rounded.
pub fn raws_below(a: &[u8], b: &[u8], c: &[u8], d: &[u8], e: &[u8], f: &[u8], out: &mut [u16])
    requires first { (length a.now ≡ length out.old) × (length b.now ≡ length out.old) × (length c.now ≡ length out.old) }
    requires last { (length d.now ≡ length out.old) × (length e.now ≡ length out.old) × (length f.now ≡ length out.old) }
    ensures { (i : ℕ) → i < length out.old → RawDown a.now b.now c.now d.now e.now f.now i (slice_index out.new i) }
{
    for i in 0..out.len() {
        out[i] = raw_of(a[i], b[i], c[i], d[i], e[i], f[i]);
    }
}

// The first two places and the last three get what stands beside them.
pub fn ends_copied(line: &mut [u16])
    requires { 6 ≤ length line.old }
    ensures { (i : ℕ) → i < length line.old → slice_index line.new i ≡ slice_index line.old (ended (length line.old - 5) i + 2) }
{
    let end = line.len() - 3;
    let (first, last) = (line[2], line[end - 1]);
    line[0] = first;
    line[1] = first;
    line[end] = last;
    line[end + 1] = last;
    line[end + 2] = last;
}

// The half samples along a row of taps that aren't rounded.
pub fn middles_along(a: &[u16], out: &mut [u8])
    requires room { length a.now ≡ length out.old + 5 }
    requires small { AreRaw a.now (length a.now) }
    ensures { (i : ℕ) → i < length out.old → slice_index out.new i ≡ middle_across a.now i }
{
    for i in 0..out.len() {
        out[i] = middle_of(a[i], a[i + 1], a[i + 2], a[i + 3], a[i + 4], a[i + 5]);
    }
}
