// The bytes of a code that a carry may still reach.
ghost use Rattle.std.specs.Prelude.{◌≡◌, ℕ, ◌+◌, ◌-◌, ◌*◌, ◌^◌, ◌<◌, ◌≤◌, Bool, true, false, cond, List, [], ◌++◌, length};
ghost use Rattle.spec_bits.specs.Bits.{digits};
ghost use Rattle.cabac_coder.specs.Emitted.{Emitted, emitted, run_of};

use bit_strings::BitBuf;
use std::marker::Model;

/// Bytes of a number that a carry may still raise. A byte is written once no carry can reach it: the last one below 255
/// is held back, and those of 255 behind it, which a carry would turn to 0, are counted.
#[derive(Drop)]
pub struct PendingBytes {
    buf: BitBuf,
    base: u64,
    held: u32,
    outstanding: u64,
    first: bool,
}

impl Model for PendingBytes {
    ghost Value = { Emitted };

    ghost view = { λ p. emitted p.base p.first p.held p.outstanding p.buf.text p.buf.room p.buf.made };

    ghost invariant = { λ p. record { within : p.base ≤ length p.buf.text; empty : p.first ≡ true → length p.buf.text ≡ p.base; blank : p.first ≡ true → p.held ≡ 0; below : p.held ≤ 254 } };
}

impl PendingBytes {
    /// No bytes, behind what the buffer holds.
    pub fn start(buf: BitBuf) -> PendingBytes
        ensures { result ≡ record { start = buf.text; room = buf.room; made = buf.made; number = 0; count = 0 } }
    {
        let base = buf.len();
        PendingBytes {
            buf,
            base,
            held: 0,
            outstanding: 0,
            first: true,
        }
    }

    /// One byte more, with a carry where the digit is over 255.
    pub fn push(&mut self, digit: u32)
        requires room { length self.old.start + self.old.count ≤ self.old.room }
        requires wide { self.old.count + 8 < 2 ^ 64 }
        requires few { digit ≤ 510 }
        requires bound { 256 ≤ digit → self.old.number + 1 < 2 ^ self.old.count }
        ensures { self.new ≡ record self.old { number = 256 * self.old.number + digit; count = self.old.count + 8 } }
    {
        if digit == 255 {
            self.hold();
        } else if digit < 255 {
            self.settle(false, digit);
        } else {
            self.settle(true, digit - 256);
        }
    }

    fn hold(&mut self)
        requires { self.old.count + 8 < 2 ^ 64 }
        ensures { self.new ≡ record self.old { number = 256 * self.old.number + 255; count = self.old.count + 8 } }
    {
        self.outstanding += 1;
    }

    fn settle(&mut self, carry: bool, next: u32)
        requires room { length self.old.start + self.old.count ≤ self.old.room }
        requires few { next ≤ 254 }
        requires bound { carry ≡ true → self.old.number + 1 < 2 ^ self.old.count }
        ensures { self.new ≡ record self.old { number = 256 * self.old.number + (cond carry 256 0 + next); count = self.old.count + 8 } }
    {
        put_held(&mut self.buf, self.first, self.held, carry);
        put_run(&mut self.buf, self.outstanding, carry);
        self.held = next;
        self.outstanding = 0;
        self.first = false;
    }

    /// The last digits of the number, where no carry can come any more: `size` binary digits, and a carry before them.
    pub fn finish(self, carry: bool, size: u8, last: u64) -> BitBuf
        requires room { length self.start + self.count + size ≤ self.room }
        requires bound { carry ≡ true → self.number + 1 < 2 ^ self.count }
        requires few { size ≤ 32 }
        requires fits { last < 2 ^ size }
        ensures { result ≡ record { text = self.start ++ digits (self.count + size) ((self.number + cond carry 1 0) * 2 ^ size + last); room = self.room; made = self.made } }
    {
        let PendingBytes {
            mut buf,
            base: _,
            held,
            outstanding,
            first,
        } = self;
        put_held(&mut buf, first, held, carry);
        put_run(&mut buf, outstanding, carry);
        put_digits(&mut buf, size, last);
        buf
    }

    /// The bits as they were at the start.
    pub fn give_back(self) -> BitBuf
        ensures { result ≡ record { text = self.start; room = self.room; made = self.made } }
    {
        let PendingBytes {
            mut buf,
            base,
            held: _,
            outstanding: _,
            first: _,
        } = self;
        buf.cut(base);
        buf
    }
}

fn put_digits(buf: &mut BitBuf, size: u8, value: u64)
    requires room { length buf.old.text + size ≤ buf.old.room }
    requires few { size ≤ 32 }
    requires fits { value < 2 ^ size }
    ensures { buf.new ≡ record buf.old { text = buf.old.text ++ digits size value } }
{
    buf.put(size, value).unwrap();
}

fn put_held(buf: &mut BitBuf, first: bool, held: u32, carry: bool)
    requires room { first ≡ false → length buf.old.text + 8 ≤ buf.old.room }
    requires below { held ≤ 254 }
    ensures { buf.new ≡ record buf.old { text = buf.old.text ++ cond first [] (digits 8 (held + cond carry 1 0)) } }
{
    if !first {
        put_digits(buf, 8, (held + carry as u32) as u64);
    }
}

fn put_run(buf: &mut BitBuf, count: u64, carry: bool)
    requires { length buf.old.text + 8 * count ≤ buf.old.room }
    ensures { buf.new ≡ record buf.old { text = buf.old.text ++ digits (8 * count) (run_of carry count) } }
{
    let byte = run_byte(carry);
    for i in 0..count {
        put_digits(buf, 8, byte);
    }
}

fn run_byte(carry: bool) -> u64
    ensures { result ≡ cond carry 0 255 }
{
    if carry { 0 } else { 255 }
}
