// A film of a grey picture of 16 by 16 samples: a file is encoded to three files.
use enc_edge::{Failed, OpenGate, Out, RealStudio, Studio, read_full, write_full};
use encode_film::encode;
use spec_words::command::{Outputs, Settings};
use spec_words::name::Name;
use std::alloc::{AllocError, Global};
use std::fs;
use std::test::Fail;

const SETTINGS: Settings = Settings {
    rate: 1_000_000,
    cpb: 1_000_000,
    delay: 45_000,
    qp: 26,
    refs: 2,
    bframes: 2,
    idr: 250,
    range: 16,
    slices: 1,
    workers: 1,
    level: 0,
    t8x8: true,
};

// The parameter sets of a grey picture, the messages on the buffer and the delays, and a slice of one macroblock
// without residual.
const STREAM: [u8; 88] = [
    0x00, 0x00, 0x00, 0x01, 0x67, 0x64, 0x00, 0x0D, 0xAC, 0x1B, 0x1A, 0xDE, 0x84, 0x00, 0x00, 0x03,
    0x00, 0x04, 0x00, 0x00, 0x03, 0x00, 0xCB, 0x80, 0x00, 0x03, 0xD0, 0x90, 0x00, 0x1E, 0x84, 0x9F,
    0xDE, 0xE0, 0x1E, 0x24, 0x4A, 0x70, 0x00, 0x00, 0x00, 0x01, 0x68, 0xEE, 0x38, 0xB0, 0x00, 0x00,
    0x01, 0x06, 0x00, 0x09, 0x80, 0x00, 0x57, 0xE4, 0x00, 0x00, 0x03, 0x00, 0x00, 0x40, 0x01, 0x06,
    0x00, 0x00, 0x03, 0x00, 0x00, 0x03, 0x00, 0x02, 0x80, 0x00, 0x00, 0x01, 0x65, 0x88, 0x80, 0x00,
    0x40, 0x00, 0x02, 0xFF, 0xFE, 0xD6, 0xDF, 0x80,
];

const SHOWN: [u8; 38] = *b"YUV4MPEG2 W16 H16 F25:1 Ip C420\nFRAME\n";

const REPORT: [u8; 137] = *b"rate 1000000 cpb 1000000 delay 45000 level 13 slices 1
0 0 I qp 24 plain bits 704 filler 0 have 500000
pictures 1 bits 704 comparisons 0
";

fn outputs_of(alloc: Global) -> Result<Outputs, AllocError> {
    let stream = Name::new(alloc, "encoder_tests.264")?;
    let recon = Name::new(alloc, "encoder_tests.recon.y4m")?;
    let report = Name::new(alloc, "encoder_tests.txt")?;
    Ok(Outputs {
        stream,
        recon,
        report,
    })
}

#[test]
fn a_file_is_encoded_to_three_files(rt: HostRuntime) -> Result<(), Fail> {
    let film = "encoder_tests.y4m";
    let outputs = outputs_of(rt.alloc())?;
    let mut studio = RealStudio::new(&rt);
    assert_eq!(rt; studio.open_out(Out::Report, film), Ok(()));
    let head = b"YUV4MPEG2 W16 H16\nFRAME\n";
    assert_eq!(rt; write_full(&mut studio, Out::Report, head), Ok(()));
    let grey = [0x80; 384];
    assert_eq!(rt; write_full(&mut studio, Out::Report, &grey), Ok(()));
    assert_eq!(rt; studio.close_out(Out::Report), Ok(()));
    let end = encode(&rt, film, &outputs, &SETTINGS, &mut studio, &OpenGate);
    assert_eq!(rt; end, Ok(()));
    assert_eq!(rt; studio.write(Out::Stream, &[0]), Err(Failed));
    assert_eq!(rt; studio.write(Out::Recon, &[0]), Err(Failed));
    assert_eq!(rt; studio.write(Out::Report, &[0]), Err(Failed));
    let mut behind = [0; 1];
    let mut bytes = [0; 88];
    assert_eq!(rt; studio.open_in("encoder_tests.264"), Ok(()));
    assert_eq!(rt; read_full(&mut studio, &mut bytes), Ok(88));
    assert_eq!(rt; bytes, STREAM);
    assert_eq!(rt; read_full(&mut studio, &mut behind), Ok(0));
    let mut lines = [0; 38];
    let mut samples = [0; 384];
    assert_eq!(rt; studio.open_in("encoder_tests.recon.y4m"), Ok(()));
    assert_eq!(rt; read_full(&mut studio, &mut lines), Ok(38));
    assert_eq!(rt; lines, SHOWN);
    assert_eq!(rt; read_full(&mut studio, &mut samples), Ok(384));
    assert_eq!(rt; samples, grey);
    assert_eq!(rt; read_full(&mut studio, &mut behind), Ok(0));
    let mut report = [0; 137];
    assert_eq!(rt; studio.open_in("encoder_tests.txt"), Ok(()));
    assert_eq!(rt; read_full(&mut studio, &mut report), Ok(137));
    assert_eq!(rt; report, REPORT);
    assert_eq!(rt; read_full(&mut studio, &mut behind), Ok(0));
    for name in [
        film,
        "encoder_tests.264",
        "encoder_tests.recon.y4m",
        "encoder_tests.txt",
    ] {
        fs::remove_file(&rt, name)?;
    }
    Ok(())
}
