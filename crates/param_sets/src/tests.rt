// Heads and messages of worked streams, of a stored picture and of one grey picture at 25 pictures a second.
use super::{
    SeqHead, SliceHead, write_buffering, write_pps, write_slice_head, write_sps, write_timing,
};
use bit_strings::BitBuf;
use enc_tables::SliceKind;
use std::test::Fail;

#[test]
fn writes_parameter_sets(rt: HostRuntime) -> Result<(), Fail> {
    let mut out = BitBuf::with_room(rt.alloc(), 32)?;
    let stored = SeqHead {
        width: 16,
        height: 16,
        level: 51,
        refs: 1,
        timing: None,
    };
    write_sps(&mut out, &stored)?;
    out.trail()?;
    assert!(rt; out.len() % 8 == 0);
    assert_eq!(rt;
        out.bytes(),
        [0x64, 0, 0x33, 0xAC, 0x1B, 0x1A, 0x9E, 0x40].as_slice()
    );
    out.clear();
    write_pps(&mut out, false, false)?;
    out.trail()?;
    assert!(rt; out.len() % 8 == 0);
    assert_eq!(rt; out.bytes(), [0xCE, 0x38, 0x30].as_slice());
    Ok(())
}

#[test]
fn writes_slice_headers(rt: HostRuntime) -> Result<(), Fail> {
    let mut out = BitBuf::with_room(rt.alloc(), 16)?;
    let first = SliceHead {
        first_mb: 0,
        kind: SliceKind::I,
        idr: true,
        frame_num: 0,
        idr_id: 0,
        poc: 0,
        refs0: 0,
        refs1: 0,
        moved: None,
        qp: 24,
        cabac: true,
    };
    write_slice_head(&mut out, &first)?;
    assert!(rt; out.len() % 8 == 0);
    assert_eq!(rt;
        out.bytes(),
        [0x88, 0x80, 0, 0x40, 0, 0x02, 0xFF].as_slice()
    );
    out.clear();
    let next = SliceHead {
        kind: SliceKind::P,
        idr: false,
        frame_num: 1,
        poc: 2,
        refs0: 1,
        qp: 26,
        ..first
    };
    write_slice_head(&mut out, &next)?;
    assert!(rt; out.len() % 8 == 0);
    assert_eq!(rt; out.bytes(), [0x9A, 0, 2, 0, 5, 0x9F].as_slice());
    Ok(())
}

#[test]
fn writes_messages(rt: HostRuntime) -> Result<(), Fail> {
    let mut out = BitBuf::with_room(rt.alloc(), 32)?;
    write_buffering(&mut out, 45000)?;
    write_timing(&mut out, 0, 2)?;
    out.trail()?;
    assert!(rt; out.len() % 8 == 0);
    assert_eq!(rt;
        out.bytes(),
        [
            0, 9, 0x80, 0, 0x57, 0xE4, 0, 0, 0, 0, 0x40, 1, 6, 0, 0, 0, 0, 0, 2, 0x80,
        ]
        .as_slice()
    );
    Ok(())
}
