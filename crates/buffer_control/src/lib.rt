//! The ledger of a constant-rate buffer: how many bits the next access unit may have, and what is due behind it (ITU-T
//! H.264, Annex C). All numbers are exact: every bit is counted 90000·num-fold, in whole numbers of 128 bits.
#![tactic(auto)]

ghost use Rattle.std.specs.Prelude.{◌≡◌, ◌≤◌, ◌<◌, ◌+◌, ◌-◌, ◌*◌, ◌^◌, ℕ};
ghost use Rattle.spec_buffer.specs.Buffer.{IsRate};
ghost use Rattle.spec_buffer.specs.Ledger.{Keeps, half_full as half_full_in};
ghost use Rattle.buffer_control.specs.Kept.{rate_by, spent_by};

use enc_tables::SliceKind;

/// What was spent so far of the bits that come at a constant rate, and the base of the quantisation parameters, which
/// follows it.
#[derive(Drop)]
pub struct Ledger {
    // bits a second (BitRate)
    rate: u32,
    // bits that the buffer holds (CpbSize)
    cpb: u32,
    // when the first unit is removed, in 90000ths of a second (initial_cpb_removal_delay)
    delay: u32,
    // num pictures come in den seconds
    num: u32,
    den: u32,
    // units so far, and their bits with filler and start codes
    units: u32,
    bits: u64,
    // the base
    qp: u8,
    ghost settings: { IsRate (rate_by rate cpb delay num den) },
    ghost comes: { 1 ≤ rate },
    ghost keeps: { Keeps (rate_by rate cpb delay num den) (spent_by units bits qp) },
    ghost few: { units ≤ 2000000 },
    ghost size: { cpb ≤ 4294967295 },
    ghost small: { bits ≤ units * 4294967295 },
    ghost base: { qp ≤ 51 },
}

/// The delay that stands where none is set, in 90000ths of a second: half of a buffer of `cpb` bits fills in it. It is
/// at most 2^32 - 1.
pub fn half_full(rate: u32, cpb: u32) -> u32
    requires { 1 ≤ rate }
    ensures { result ≡ half_full_in rate cpb }
{
    (90000 * cpb as u64 / (2 * rate as u64)).min(4294967295) as u32
}

impl Ledger {
    ghost use Rattle.spec_buffer.specs.Buffer.{scale, arrived};
    ghost use Rattle.spec_buffer.specs.Ledger.{fresh, available, excess, filler_bytes, base_after, spent, start_qp, initial_delay};
    ghost use Rattle.buffer_control.specs.Seen.{rate_of, spent_of};

    /// A ledger of which nothing was spent. Bits come at `rate` a second into a buffer of `cpb` bits; the first unit is
    /// removed after `delay` 90000ths of a second, and `num` pictures come in `den` seconds. The buffer holds a
    /// picture's share and 48 bits, and at the first removal it isn't over its size. `qp` is the base of the
    /// quantisation parameters.
    pub fn new(rate: u32, cpb: u32, delay: u32, num: u32, den: u32, qp: u8) -> Ledger
        requires settings { IsRate (rate_by rate cpb delay num den) }
        requires comes { 1 ≤ rate }
        requires base { qp ≤ 51 }
        ensures settings { rate_of result ≡ rate_by rate cpb delay num den }
        ensures nothing { spent_of result ≡ fresh qp }
    {
        Ledger {
            rate,
            cpb,
            delay,
            num,
            den,
            units: 0,
            bits: 0,
            qp,
        }
    }

    // How often a bit is counted.
    fn scale(&self) -> u128
        ensures value { result ≡ scale (rate_of self.now) }
        ensures some { 1 ≤ result }
        ensures bound { result < 2 ^ 64 }
    {
        90000 * self.num as u128
    }

    // The bits that have come when the unit behind so many is removed, counted `scale`-fold.
    fn arrived(&self, units: u32) -> u128
        ensures value { result ≡ arrived (rate_of self.now) units }
        ensures bound { result < 2 ^ 120 }
    {
        self.rate as u128
            * (self.delay as u128 * self.num as u128 + 90000 * self.den as u128 * units as u128)
    }

    // What has come of the next unit's bits and wasn't spent, counted `scale`-fold.
    fn left(&self) -> u128
        ensures { result ≡ arrived (rate_of self.now) self.now.units - scale (rate_of self.now) * self.now.bits }
    {
        self.arrived(self.units) - self.scale() * self.bits as u128
    }

    /// How many bits are there for the next access unit, rounded down: at most what the buffer holds.
    #[tactic(auto, unfolding(spec_buffer::specs::Ledger::available))]
    pub fn available(&self) -> u64
        ensures value { result ≡ available (rate_of self.now) (spent_of self.now) }
        ensures buffer { result ≤ self.now.cpb }
    {
        (self.left() / self.scale()) as u64
    }

    // How far the buffer would be over its size when the unit behind one of so many bits is removed, counted
    // `scale`-fold.
    fn excess(&self, bits: u64) -> u128
        ensures value { result ≡ excess (rate_of self.now) (spent_of self.now) bits }
        ensures bound { result < 2 ^ 120 }
    {
        let come = self.arrived(self.units + 1);
        let room = self.scale() * (self.cpb as u128 + self.bits as u128 + bits as u128);
        come.saturating_sub(room)
    }

    // The bytes of filler that are due behind a unit of so many bits.
    #[tactic(auto, unfolding(spec_buffer::specs::Ledger::filler_bytes))]
    fn filler(&self, bits: u64) -> u128
        ensures value { result ≡ filler_bytes (rate_of self.now) (spent_of self.now) bits }
    {
        let excess = self.excess(bits);
        if excess == 0 {
            return 0;
        }
        let byte = 8 * self.scale();
        let bytes = (excess + (byte - 1)) / byte;
        bytes.max(5)
    }

    /// The bytes of the filler unit that is due behind an access unit of so many bits, start codes included: 0 where
    /// none is due, else the least number from 5 on that keeps the buffer from being over its size when the next unit
    /// is removed. With it the unit still has at most the bits that are there.
    pub fn filler_bytes(&self, bits: u64) -> u32
        requires { bits ≤ available (rate_of self.now) (spent_of self.now) }
        ensures value { result ≡ filler_bytes (rate_of self.now) (spent_of self.now) bits }
        ensures fits { bits + 8 * result ≤ available (rate_of self.now) (spent_of self.now) }
    {
        self.filler(bits) as u32
    }

    // The base behind a unit that without filler has so many bits.
    #[tactic(auto, unfolding(spec_buffer::specs::Ledger::base_after))]
    fn base_after(&self, bits: u64) -> u8
        ensures value { result ≡ base_after (rate_of self.now) self.now.qp bits }
    {
        let share = self.rate as u128 * self.den as u128;
        let took = 4 * (bits as u128 * self.num as u128);
        if 5 * share < took {
            return (self.qp + 1).min(51);
        }
        if took < 3 * share {
            return self.qp.saturating_sub(1);
        }
        self.qp
    }

    /// An access unit of so many bits and so many bytes of filler was spent. Fewer than 2,000,000 were before.
    #[tactic(auto, unfolding(spec_buffer::specs::Ledger::spent))]
    pub fn spend(&mut self, bits: u64, filler: u32)
        requires bits { bits ≤ available (rate_of self.old) (spent_of self.old) }
        requires filler { filler ≡ filler_bytes (rate_of self.old) (spent_of self.old) bits }
        requires few { self.old.units < 2000000 }
        ensures settings { rate_of self.new ≡ rate_of self.old }
        ensures spent { spent_of self.new ≡ spent (rate_of self.old) (spent_of self.old) bits filler }
    {
        self.qp = self.base_after(bits);
        self.bits += bits + 8 * filler as u64;
        self.units += 1;
    }

    /// How many access units were spent.
    pub fn units(&self) -> u32
        ensures { result ≡ (spent_of self.now).units }
    {
        self.units
    }

    /// How many bits they have, with start codes and filler.
    pub fn bits(&self) -> u64
        ensures { result ≡ (spent_of self.now).bits }
    {
        self.bits
    }

    /// The quantisation parameter that is tried first for a picture of this kind.
    pub fn start_qp(&self, kind: SliceKind) -> u8
        ensures { result ≡ start_qp kind (spent_of self.now).qp }
    {
        match kind {
            SliceKind::I => self.qp.saturating_sub(2),
            SliceKind::P => self.qp,
            SliceKind::B => (self.qp + 2).min(51),
        }
    }

    /// The initial removal delay of a buffering period that begins with the next access unit, in 90000ths of a second
    /// (clause D.2.2).
    #[tactic(auto, unfolding(spec_buffer::specs::Ledger::initial_delay))]
    pub fn bp_delay(&self) -> u32
        ensures { result ≡ initial_delay (rate_of self.now) (spent_of self.now) }
    {
        if self.units == 0 {
            return self.delay;
        }
        let delay = self.left() / (self.num as u128 * self.rate as u128);
        delay.min(4294967295).max(1) as u32
    }
}

#[cfg(test)]
mod tests;
