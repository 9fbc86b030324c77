// Whole bytes, and the bits of the byte that is begun.
ghost use Rattle.std.specs.Prelude.{◌≡◌, ℕ, ◌+◌, ◌-◌, ◌*◌, ◌^◌, ◌/◌, ◌%◌, ◌<◌, ◌≤◌, ◌++◌, Bool, List, [], length, take, replicate, false, vec_len, vec_capacity, IfOk, negsuc, ◌<ℤ◌};
ghost use Rattle.std.specs.List.{All};
ghost use Rattle.spec_bits.specs.Bits.{digits, bits_of_bytes, bytes_of_bits, IsByte};
ghost use Rattle.spec_bits.specs.Golomb.{ue_bits, se_bits, signed_place, trail_bits, align_bits, to_byte};
ghost use Rattle.bit_strings.specs.BitText.{BitText, Appends, filled};

use std::alloc::{AllocError as OutOfMemory, Global};
use std::marker::Model;

/// The bits pass the room of the buffer, which is unchanged.
#[derive(Clone, Copy, Debug, PartialEq, Eq)]
pub struct Full;

/// A list of bits with a room, in memory that is taken once.
///
/// Each call that appends answers `Full` exactly where the length after it would pass the room, and then changes
/// nothing.
#[derive(Drop)]
pub struct BitBuf {
    bytes: Vec<u8>,
    begun: u64,
    used: u64,
    room: u64,
    made: u64,
}

impl Model for BitBuf {
    ghost use Rattle.std.specs.Prelude.{◌<◌, ◌≤◌, ◌+◌, ◌*◌, ◌^◌, vec_len, vec_capacity};
    ghost use Rattle.bit_strings.specs.BitText.{BitText, filled};

    ghost Value = { BitText };

    ghost view = { λ b. record { text = filled b.bytes.items b.used b.begun; room = b.room; made = b.made } };

    ghost invariant = { λ b. (b.used < 8) × (b.begun < 2 ^ b.used) × (8 * vec_len b.bytes + b.used ≤ b.room) × (b.room ≤ b.made) × (b.made ≤ 8 * vec_capacity b.bytes) × (b.made < 2 ^ 36) };
}

impl BitBuf {
    /// An empty buffer with room for this many bytes.
    pub fn with_room(alloc: Global, bytes: u32) -> Result<BitBuf, OutOfMemory>
        ensures { IfOk result (λ b. b ≡ record { text = []; room = 8 * bytes; made = 8 * bytes }) }
    {
        let made = u64::from(bytes) * 8;
        Ok(BitBuf {
            bytes: Vec::with_capacity(alloc, bytes as usize)?,
            begun: 0,
            used: 0,
            room: made,
            made,
        })
    }

    /// Sets the room to this many bits. Nothing else changes.
    pub fn limit(&mut self, bits: u64)
        requires above { length self.old.text ≤ bits }
        requires made { bits ≤ self.old.made }
        ensures { self.new ≡ record self.old { room = bits } }
    {
        self.room = bits;
    }

    /// How many bits it holds.
    pub fn len(&self) -> u64
        ensures len { result ≡ length self.now.text }
        ensures within { result ≤ self.now.room }
    {
        self.bytes.len() as u64 * 8 + self.used
    }

    /// How many bits fit behind those that it holds.
    pub fn room_left(&self) -> u64
        ensures { length self.now.text + result ≡ self.now.room }
    {
        self.room - (self.bytes.len() as u64 * 8 + self.used)
    }

    /// How many bits are missing to a whole byte, 0 to 7.
    pub fn bits_to_byte(&self) -> u8
        ensures { result ≡ to_byte (length self.now.text) }
    {
        ((8 - self.used) % 8) as u8
    }

    /// Appends n bits of a number, most significant first.
    pub fn put(&mut self, n: u8, value: u64) -> Result<(), Full>
        requires few { n ≤ 32 }
        requires below { value < 2 ^ n }
        ensures { Appends self.old self.new (digits n value) result }
    {
        if u64::from(n) > self.room_left() {
            return Err(Full);
        }
        self.append(n, value);
        Ok(())
    }

    // `put`, where the room is known.
    fn append(&mut self, n: u8, value: u64)
        requires few { n ≤ 32 }
        requires below { value < 2 ^ n }
        requires room { length self.old.text + n ≤ self.old.room }
        ensures { self.new ≡ record self.old { text = self.old.text ++ digits n value } }
    {
        let mut rest = joined(self.begun, self.used, n, value);
        let mut used = self.used + u64::from(n);
        while used >= 8 {
            used -= 8;
            self.bytes.push_reserved(high_byte(rest, used));
            rest = low_part(rest, used);
        }
        self.begun = rest;
        self.used = used;
    }

    /// Appends whole bytes.
    pub fn put_bytes(&mut self, bytes: &[u8]) -> Result<(), Full>
        requires { length self.old.text % 8 ≡ 0 }
        ensures { Appends self.old self.new (bits_of_bytes bytes.now) result }
    {
        if bytes.len() as u64 > self.room_left() / 8 {
            return Err(Full);
        }
        extend(&mut self.bytes, bytes);
        Ok(())
    }

    /// Appends an unsigned Exp-Golomb code (ITU-T H.264, clause 9.1).
    pub fn ue(&mut self, value: u32) -> Result<(), Full>
        requires { value < 2 ^ 32 - 1 }
        ensures { Appends self.old self.new (ue_bits value) result }
    {
        let code = u64::from(value) + 1;
        let zeros = zeros_before(code);
        if 2 * u64::from(zeros) + 1 > self.room_left() {
            return Err(Full);
        }
        self.append(zeros, 0);
        self.append(zeros + 1, code);
        Ok(())
    }

    /// Appends a signed Exp-Golomb code (clause 9.1.1).
    #[tactic(auto, unfolding(spec_bits::specs::Golomb::se_bits))]
    pub fn se(&mut self, value: i32) -> Result<(), Full>
        requires { negsuc (2 ^ 31 - 1) <ℤ value }
        ensures { Appends self.old self.new (se_bits value) result }
    {
        self.ue(place_of(value))
    }

    /// Appends a 1, and zeros to the byte (clause 7.3.2.11).
    pub fn trail(&mut self) -> Result<(), Full>
        ensures { Appends self.old self.new (trail_bits (length self.old.text)) result }
    {
        let zeros = 7 - self.used as u8;
        self.put(zeros + 1, top_bit(zeros))
    }

    /// Appends zeros to the byte.
    pub fn align(&mut self) -> Result<(), Full>
        ensures { Appends self.old self.new (align_bits (length self.old.text)) result }
    {
        self.put(self.bits_to_byte(), 0)
    }

    /// Empties it. The room stays.
    pub fn clear(&mut self)
        ensures { self.new ≡ record self.old { text = [] } }
    {
        self.bytes.clear();
        self.used = 0;
        self.begun = 0;
    }

    /// Keeps the first bits. The room stays.
    pub fn cut(&mut self, bits: u64)
        requires { bits ≤ length self.old.text }
        ensures { self.new ≡ record self.old { text = take bits self.old.text } }
    {
        let whole = self.bytes.len() as u64 * 8;
        if bits >= whole {
            let kept = bits - whole;
            self.begun = self.begun >> (self.used - kept);
            self.used = kept;
            return;
        }
        let kept = bits % 8;
        let at = (bits / 8) as usize;
        self.begun = self.bytes[at] as u64 >> (8 - kept);
        self.used = kept;
        self.bytes.truncate(at);
    }

    /// The bits as bytes.
    pub fn bytes(&self) -> &[u8]
        requires { length self.now.text % 8 ≡ 0 }
        ensures bits { bits_of_bytes result.now ≡ self.now.text }
        ensures bytes { result.now ≡ bytes_of_bits self.now.text }
    {
        let bytes = self.bytes.as_slice();
        are_bytes(bytes);
        bytes
    }
}

// `extend_from_slice`, where the memory is there.
fn extend(bytes: &mut Vec<u8>, more: &[u8])
    requires { vec_len bytes.old + length more.now ≤ vec_capacity bytes.old }
    ensures items { bytes.new.items ≡ bytes.old.items ++ more.now }
    ensures len { vec_len bytes.new ≡ vec_len bytes.old + length more.now }
    ensures capacity { vec_capacity bytes.old ≤ vec_capacity bytes.new }
{
    if bytes.extend_from_slice(more).is_err() {
        unreachable!();
    }
}

// What stands in a slice of bytes is below 256.
fn are_bytes(bytes: &[u8])
    ensures { All IsByte bytes.now }
{}

fn joined(begun: u64, used: u64, n: u8, value: u64) -> u64
    requires used { used < 8 }
    requires begun { begun < 2 ^ used }
    requires few { n ≤ 32 }
    requires below { value < 2 ^ n }
    ensures number { result ≡ begun * 2 ^ n + value }
    ensures fits { result < 2 ^ (used + n) }
{
    (begun << n) + value
}

fn high_byte(rest: u64, used: u64) -> u8
    requires used { used < 40 }
    requires fits { rest < 2 ^ (used + 8) }
    ensures { result ≡ rest / 2 ^ used }
{
    (rest >> used) as u8
}

fn low_part(rest: u64, used: u64) -> u64
    requires { used < 40 }
    ensures { result ≡ rest % 2 ^ used }
{
    rest % (1 << used)
}

// The bit behind which this many stand.
fn top_bit(below: u8) -> u64
    requires { below < 32 }
    ensures { result ≡ 2 ^ below }
{
    1 << below
}

// How many binary digits stand behind the first of a code.
fn zeros_before(code: u64) -> u8
    requires low { 0 < code }
    requires high { code < 2 ^ 32 }
    ensures few { result < 32 }
    ensures from { 2 ^ result ≤ code }
    ensures to { code < 2 ^ (result + 1) }
{
    63 - code.leading_zeros() as u8
}

// The unsigned number that stands for a signed one.
fn place_of(value: i32) -> u32
    requires { negsuc (2 ^ 31 - 1) <ℤ value }
    ensures place { result ≡ signed_place value }
    ensures below { result < 2 ^ 32 - 1 }
{
    if value > 0 {
        value.unsigned_abs() * 2 - 1
    } else {
        value.unsigned_abs() * 2
    }
}
