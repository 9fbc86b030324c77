// Units of the byte stream.
use bit_strings::BitBuf;
use nal_writer::{filler, unit, unit_bits};
use std::test::Fail;

// Two bytes 00 before each of 00, 01 and 03, also at the end.
const PAYLOAD: [u8; 8] = [0, 0, 1, 0, 0, 0, 0, 3];

#[test]
fn units_and_filler(rt: HostRuntime) -> Result<(), Fail> {
    let mut out = BitBuf::with_room(rt.alloc(), 64)?;
    unit(&mut out, 3, 8, &PAYLOAD, true)?;
    assert_eq!(rt; out.len(), unit_bits(&PAYLOAD, true));
    assert!(rt; out.len() % 8 == 0);
    assert_eq!(rt;
        out.bytes(),
        [0, 0, 0, 1, 0x68, 0, 0, 3, 1, 0, 0, 3, 0, 0, 3, 3].as_slice()
    );
    let mut out = BitBuf::with_room(rt.alloc(), 12)?;
    filler(&mut out, 5)?;
    assert!(rt; out.len() % 8 == 0);
    assert!(rt; filler(&mut out, 8).is_err());
    assert!(rt; out.len() % 8 == 0);
    filler(&mut out, 7)?;
    assert!(rt; out.len() % 8 == 0);
    assert_eq!(rt;
        out.bytes(),
        [0, 0, 1, 0x0C, 0x80, 0, 0, 1, 0x0C, 0xFF, 0xFF, 0x80].as_slice()
    );
    Ok(())
}
