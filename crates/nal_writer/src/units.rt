// Start code, header byte, and the payload with its 03 bytes.
ghost use Rattle.std.specs.Prelude.{◌≡◌, ℕ, ◌+◌, ◌-◌, ◌*◌, ◌^◌, ◌%◌, ◌<◌, ◌≤◌, ◌++◌, ◌∷◌, [], length, replicate, cond, Bool, List, map, false, ◌&&◌, nat_le};
ghost use Rattle.std.specs.List.{All, flat_map};
ghost use Rattle.spec_bits.specs.Bits.{bits_of_bytes};
ghost use Rattle.spec_bits.specs.Units.{escape, unit_bytes, filler_unit, header_byte, start_code, zeros_after, EndsWell, Nal, IsNal, written, units_of, filler_payload};
ghost use Rattle.bit_strings.specs.BitText.{Appends};
ghost use Rattle.nal_writer.specs.Runs.{IsRun, Grows};

use bit_strings::{BitBuf, Full};

/// Appends a unit: a start code of three bytes, or of four where it is long, the header byte, and the payload with its
/// 03 bytes.
///
/// `Full` comes exactly where the unit doesn't fit; the buffer is then unchanged.
pub fn unit(
    out: &mut BitBuf,
    ref_idc: u8,
    kind: u8,
    payload: &[u8],
    long_start: bool,
) -> Result<(), Full>
    requires whole { length out.old.text % 8 ≡ 0 }
    requires ref_idc { ref_idc ≤ 3 }
    requires from { 1 ≤ kind }
    requires to { kind ≤ 31 }
    requires ends { EndsWell payload.now }
    ensures { Appends out.old out.new (bits_of_bytes (unit_bytes long_start ref_idc kind payload.now)) result }
{
    let start = out.len();
    if put_unit(out, 32 * ref_idc + kind, payload, long_start).is_err() {
        out.cut(start);
        return Err(Full);
    }
    Ok(())
}

/// How many bits `unit` appends for this payload.
pub fn unit_bits(payload: &[u8], long_start: bool) -> u64
    requires { length payload.now ≤ 2 ^ 60 }
    ensures { (ref_idc : ℕ) (kind : ℕ) → result ≡ 8 * length (unit_bytes long_start ref_idc kind payload.now) }
{
    8 * (head_len(long_start) + payload.len() as u64 + inserted(payload))
}

/// Appends a unit of filler data of this many bytes, with a start code of three bytes (clause 7.3.2.7).
///
/// `Full` comes exactly where the unit doesn't fit; the buffer is then unchanged.
pub fn filler(out: &mut BitBuf, bytes: u32) -> Result<(), Full>
    requires whole { length out.old.text % 8 ≡ 0 }
    requires least { 5 ≤ bytes }
    ensures { Appends out.old out.new (bits_of_bytes (filler_unit bytes)) result }
{
    let start = out.len();
    if put_filler(out, bytes as usize - 5).is_err() {
        out.cut(start);
        return Err(Full);
    }
    Ok(())
}

/// Units are read back: a stream of them, with start codes of either length, has exactly these units. A filler unit is
/// one of them.
pub fn units_are_read_back()
    ensures units { (us : List (Bool × Nal)) → All (λ u. IsNal u.1) us
        → units_of (flat_map written us) ≡ Some (map (λ u. u.1) us) }
    ensures filler { (n : ℕ) → (nal : Nal)
        × (nal.payload ≡ filler_payload n)
        × IsNal nal
        × (filler_unit n ≡ written (false, nal)) }
{}

// A unit, or on `Full` maybe a part of it.
fn put_unit(out: &mut BitBuf, header: u8, payload: &[u8], long_start: bool) -> Result<(), Full>
    requires { length out.old.text % 8 ≡ 0 }
    ensures { Grows out.old out.new (bits_of_bytes (start_code long_start ++ (header ∷ escape 0 payload.now))) result }
{
    put_head(out, header, long_start)?;
    put_escaped(out, payload)
}

fn put_head(out: &mut BitBuf, header: u8, long_start: bool) -> Result<(), Full>
    requires { length out.old.text % 8 ≡ 0 }
    ensures { Appends out.old out.new (bits_of_bytes (start_code long_start ++ (header ∷ []))) result }
{
    if long_start {
        return out.put_bytes(&[0, 0, 0, 1, header]);
    }
    out.put_bytes(&[0, 0, 1, header])
}

// A payload with its 03 bytes, run by run.
fn put_escaped(out: &mut BitBuf, payload: &[u8]) -> Result<(), Full>
    requires { length out.old.text % 8 ≡ 0 }
    ensures { Grows out.old out.new (bits_of_bytes (escape 0 payload.now)) result }
{
    let mut rest = payload;
    let mut run = clean_run(rest);
    while run < rest.len() {
        out.put_bytes(&rest[..run])?;
        out.put_bytes(&[3])?;
        rest = &rest[run..];
        run = clean_run(rest);
    }
    out.put_bytes(rest)
}

// How many bytes stand before the first place of a byte 03.
fn clean_run(bytes: &[u8]) -> usize
    ensures { IsRun bytes.now result }
{
    let mut zeros = 0usize;
    for i in 0..bytes.len() {
        let byte = bytes[i];
        // Most bytes: no run of zeros goes on here.
        if byte > 3 {
            zeros = 0;
            continue;
        }
        if needs_escape(zeros, byte) {
            return i;
        }
        zeros = next_zeros(zeros, byte);
    }
    bytes.len()
}

fn needs_escape(zeros: usize, byte: u8) -> bool
    ensures { result ≡ (nat_le 2 zeros && nat_le byte 3) }
{
    zeros >= 2 && byte <= 3
}

fn next_zeros(zeros: usize, byte: u8) -> usize
    requires { zeros < 2 ^ 63 }
    ensures { result ≡ zeros_after zeros byte }
{
    if byte == 0 { zeros + 1 } else { 0 }
}

// How many bytes 03 are put in.
fn inserted(payload: &[u8]) -> u64
    ensures count { length (escape 0 payload.now) ≡ length payload.now + result }
    ensures few { 2 * result ≤ length payload.now }
{
    let mut rest = payload;
    let mut run = clean_run(rest);
    let mut count = 0u64;
    while run < rest.len() {
        count += 1;
        rest = &rest[run..];
        run = clean_run(rest);
    }
    count
}

fn head_len(long_start: bool) -> u64
    ensures { result ≡ length (start_code long_start) + 1 }
{
    if long_start { 5 } else { 4 }
}

static FILL: [u8; 256] = [0xFF; 256];

// A filler unit with this many bytes FF, or on `Full` maybe a part of it.
fn put_filler(out: &mut BitBuf, count: usize) -> Result<(), Full>
    requires { length out.old.text % 8 ≡ 0 }
    ensures { Grows out.old out.new (bits_of_bytes (start_code false ++ (12 ∷ (replicate count 255 ++ (128 ∷ []))))) result }
{
    put_head(out, 12, false)?;
    put_fill(out, count)?;
    out.put_bytes(&[128])
}

// Bytes FF, or on `Full` maybe some of them.
fn put_fill(out: &mut BitBuf, count: usize) -> Result<(), Full>
    requires { length out.old.text % 8 ≡ 0 }
    ensures { Grows out.old out.new (bits_of_bytes (replicate count 255)) result }
{
    let mut left = count;
    while left > FILL.len() {
        out.put_bytes(&FILL)?;
        left -= FILL.len();
    }
    out.put_bytes(&FILL[..left])
}
