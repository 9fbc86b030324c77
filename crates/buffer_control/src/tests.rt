// Ledgers of a few units, worked out by hand.
ghost use Rattle.std.specs.Prelude.{◌≡◌, ◌≤◌, ◌<◌};

use super::{Ledger, half_full};
use enc_tables::SliceKind;
use std::test::Fail;

// A unit of at most the available bits, or of these bits, with its filler; its length with the filler.
fn spend_most(ledger: &mut Ledger, bits: u64) -> u64
    requires { ledger.old.units < 2000000 }
{
    let bits = bits.min(ledger.available());
    let filler = ledger.filler_bytes(bits);
    ledger.spend(bits, filler);
    bits + 8 * filler as u64
}

// 25 pictures a second with a share of 40,000 bits: the base rises above 50,000 bits and falls below 30,000.
#[test]
fn the_base_follows_the_units(rt: HostRuntime) -> Result<(), Fail> {
    let units = [(50_001u64, 27u8), (50_000, 26), (30_000, 26), (29_999, 25)];
    for (bits, qp) in units {
        let mut ledger = Ledger::new(1_000_000, 1_000_000, 45_000, 25, 1, 26);
        assert_eq!(rt; ledger.available(), 500_000);
        // The filler isn't looked at: the base follows the unit's own bits.
        let _ = spend_most(&mut ledger, bits);
        assert_eq!(rt; ledger.start_qp(SliceKind::I), qp - 2);
        assert_eq!(rt; ledger.start_qp(SliceKind::P), qp);
        assert_eq!(rt; ledger.start_qp(SliceKind::B), qp + 2);
    }
    Ok(())
}

// 64 bits a second, a buffer of 2,048 bits, half full at the first removal: 664 bits leave 362 for the second unit.
#[test]
fn bits_that_are_left(rt: HostRuntime) -> Result<(), Fail> {
    assert_eq!(rt; half_full(64_000, 2608), 1833);
    let mut ledger = Ledger::new(64, 2048, 1_440_000, 25, 1, 26);
    assert_eq!(rt; ledger.bp_delay(), 1_440_000);
    assert_eq!(rt; ledger.available(), 1024);
    let length = spend_most(&mut ledger, 664);
    assert_eq!(rt; length, 664);
    assert_eq!(rt; ledger.available(), 362);
    assert_eq!(rt; ledger.bp_delay(), 509_850);
    Ok(())
}

// The smallest buffer for a share of 40,000 bits: filler makes small units as long as the buffer's size asks.
#[test]
fn filler_keeps_the_buffer(rt: HostRuntime) -> Result<(), Fail> {
    let mut ledger = Ledger::new(1_000_000, 40_048, 1802, 25, 1, 26);
    let first = spend_most(&mut ledger, 704);
    assert_eq!(rt; first, 19_976);
    assert_eq!(rt; (ledger.units(), ledger.bits()), (1, 19_976));
    Ok(())
}
