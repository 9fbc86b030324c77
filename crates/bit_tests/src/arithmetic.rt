// Whole codes, and bins that don't fit.
ghost use Rattle.std.specs.Prelude.{◌≡◌, false};

use bit_strings::BitBuf;
use cabac_coder::Coder;
use enc_tables::CtxState;
use std::process::Abort;
use std::test::Fail;

// Ends a code of at most 16 bits, and looks at its bits with zeros behind them.
fn ends_as(rt: &impl Abort, coder: Coder, bits: u64, bytes: [u8; 2]) -> Result<(), Fail>
    requires { coder.ended ≡ false }
{
    let mut coder = coder;
    coder.terminate(true)?;
    let mut code = coder.finish();
    assert_eq!(rt; code.len(), bits);
    code.align()?;
    assert_eq!(rt; code.len(), 16);
    assert_eq!(rt; code.bytes(), bytes.as_slice());
    Ok(())
}

#[test]
fn short_codes(rt: HostRuntime) -> Result<(), Fail> {
    let alloc = rt.alloc();
    let end_alone = Coder::start(BitBuf::with_room(alloc, 64)?);
    ends_as(&rt, end_alone, 9, [0xFE, 0x80])?;
    let mut behind_0 = Coder::start(BitBuf::with_room(alloc, 64)?);
    behind_0.bypass(false)?;
    ends_as(&rt, behind_0, 10, [0x7F, 0x40])?;
    let mut behind_1 = Coder::start(BitBuf::with_room(alloc, 64)?);
    behind_1.bypass(true)?;
    ends_as(&rt, behind_1, 10, [0xFE, 0xC0])?;
    let mut without_room = Coder::start(BitBuf::with_room(alloc, 1)?);
    assert!(rt; without_room.terminate(true).is_err());
    Ok(())
}

fn carried(place: usize) -> u8 {
    match place {
        0 => 0x80,
        375 => 0x7E,
        376 => 0xC0,
        _ => 0,
    }
}

// Every bin after the first leaves a digit outstanding, and the last one carries through all of them.
#[test]
fn a_carry_through_all(rt: HostRuntime) -> Result<(), Fail> {
    let mut coder = Coder::start(BitBuf::with_room(rt.alloc(), 377)?);
    coder.bypass(true)?;
    for i in 0..3000u32 {
        coder.bypass(i % 8 == 7)?;
    }
    coder.terminate(true)?;
    let mut code = coder.finish();
    assert_eq!(rt; code.len(), 3010);
    code.align()?;
    assert_eq!(rt; code.len(), 3016);
    for (place, byte) in code.bytes().iter().enumerate() {
        assert_eq!(rt; *byte, carried(place));
    }
    Ok(())
}

// The 3,000th of those bins is the first that does not fit 376 bytes.
#[test]
fn no_room_for_all(rt: HostRuntime) -> Result<(), Fail> {
    let mut coder = Coder::start(BitBuf::with_room(rt.alloc(), 376)?);
    coder.bypass(true)?;
    for i in 0..2998u32 {
        coder.bypass(i % 8 == 7)?;
    }
    assert!(rt; coder.bypass(false).is_err());
    let mut ctx = CtxState {
        state: 0,
        mps: true,
    };
    assert!(rt; coder.bin(&mut ctx, true).is_err());
    assert!(rt; coder.terminate(false).is_err());
    assert_eq!(rt; coder.give_back().len(), 0);
    Ok(())
}
