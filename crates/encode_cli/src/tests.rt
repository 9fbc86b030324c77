// Films that are stored over a studio in memory, and runs over files.
use crate::outcome::{Outcome, fault_line, status};
use crate::test_films::{grey_film, run_words, studio_of};
use enc_edge::{MemStudio, OpenGate, Out, Place, RealStudio};
use spec_film::{HeadFault, InputFault};
use std::alloc::{AllocError, Global};
use std::fs;
use std::test::Fail;

const STORE: &str = "store --in film --out stream";

const SQUARE: &[u8] = b"YUV4MPEG2 W16 H16\n";

// What stores one grey picture of 16 by 16 samples: parameter sets and the beginning of the slice; samples and the
// slice's end are bytes 80.
const BEGIN: [u8; 32] = [
    0x00, 0x00, 0x00, 0x01, 0x67, 0x64, 0x00, 0x33, 0xAC, 0x1B, 0x1A, 0x9E, 0x40, 0x00, 0x00, 0x00,
    0x01, 0x68, 0xCE, 0x38, 0x30, 0x00, 0x00, 0x01, 0x65, 0x88, 0x80, 0x00, 0x40, 0x00, 0x08, 0x68,
];

const REST: [u8; 385] = [0x80; 385];

// Four macroblocks of I_PCM behind a sequence parameter set with cropping 0, 7, 0, 7.
const EDGED_BEGIN: [u8; 34] = [
    0x00, 0x00, 0x00, 0x01, 0x67, 0x64, 0x00, 0x33, 0xAC, 0x1B, 0x1A, 0x89, 0x78, 0x88, 0x84, 0x00,
    0x00, 0x00, 0x01, 0x68, 0xCE, 0x38, 0x30, 0x00, 0x00, 0x01, 0x65, 0x88, 0x80, 0x00, 0x40, 0x00,
    0x08, 0x68,
];

// A film of one picture of 18 by 18 samples: luma is 100, but 200 in the last column, Cb is 50 and Cr 60.
fn edged_film(alloc: Global) -> Result<Vec<u8>, AllocError> {
    let mut film = b"YUV4MPEG2 W18 H18\nFRAME\n".to_vec(alloc)?;
    for _ in 0..18 {
        film.extend_from_slice(&[100; 17])?;
        film.push(200)?;
    }
    film.extend_from_slice(&[50; 81])?;
    film.extend_from_slice(&[60; 81])?;
    Ok(film)
}

fn count(bytes: &[u8], value: u8) -> usize {
    bytes.iter().filter(|byte| **byte == value).count()
}

fn is_stored_grey(bytes: &[u8]) -> bool {
    bytes.len() == 417 && bytes.starts_with(&BEGIN) && bytes.ends_with(&REST)
}

#[test]
fn films_are_stored(rt: HostRuntime) -> Result<(), Fail> {
    let alloc = rt.alloc();
    let wide = b"YUV4MPEG2 W352 H288 F30000:1001 Ip A128:117 C420mpeg2 XYSCSS=420MPEG2\n";
    let odd = Outcome::Input(InputFault::Head(HeadFault::OddSize));
    let cut = Outcome::Input(InputFault::CutFrame {
        picture: 0,
        got: 389,
    });
    let mut shorter = grey_film(alloc, SQUARE, 384, 1)?;
    let _ = shorter.pop();
    for (film, wanted, stream, line) in [
        (grey_film(alloc, SQUARE, 384, 1)?, Outcome::Done, 417, ""),
        (
            grey_film(alloc, b"YUV4MPEG2 W32 H32\n", 1536, 2)?,
            Outcome::Done,
            3150,
            "",
        ),
        (grey_film(alloc, wide, 152_064, 0)?, Outcome::Done, 0, ""),
        (
            grey_film(alloc, b"YUV4MPEG2 W17 H16\n", 384, 1)?,
            odd,
            0,
            "input refused",
        ),
        (shorter, cut, 0, "input refused at picture 0"),
    ] {
        let mut studio = studio_of(alloc, film)?;
        let outcome = run_words(&rt, STORE, "", &mut studio, &OpenGate)?;
        assert_eq!(rt; outcome, wanted);
        assert_eq!(rt; fault_line(&outcome).as_str(), line);
        assert_eq!(rt; status(&outcome), if line.is_empty() { 0 } else { 3 });
        assert_eq!(rt; studio.written(Out::Stream).len(), stream);
        assert_eq!(rt; studio.written(Out::Recon).len(), 0);
        assert_eq!(rt; studio.written(Out::Report).len(), 0);
    }
    // Columns 17 to 31 and rows 17 to 31 repeat the last ones.
    let mut studio = studio_of(alloc, edged_film(alloc)?)?;
    let outcome = run_words(&rt, STORE, "", &mut studio, &OpenGate)?;
    assert_eq!(rt; outcome, Outcome::Done);
    let stream = studio.written(Out::Stream);
    assert_eq!(rt; stream.len(), 1577);
    assert!(rt; stream.starts_with(&EDGED_BEGIN));
    assert_eq!(rt; count(stream, 200), 480);
    assert_eq!(rt; count(stream, 50), 256);
    assert_eq!(rt; count(stream, 60), 256);
    Ok(())
}

// The calls of a run that stores one grey picture: the input is opened, the head's 18 bytes are read one by one, the
// stream is opened, the six bytes of the picture's line are read one by one, and then its three planes, its access unit
// is written, the end is read, the stream is closed.
fn failing_at(call: u64) -> Outcome {
    match call {
        0 => Outcome::Open(Place::Input),
        1..=18 => Outcome::Read,
        19 => Outcome::Open(Place::Output(Out::Stream)),
        20..=28 => Outcome::Read,
        29 => Outcome::Write(Out::Stream),
        30 => Outcome::Read,
        31 => Outcome::Write(Out::Stream),
        _ => Outcome::Done,
    }
}

#[test]
fn each_call_of_storing_fails_in_turn(rt: HostRuntime) -> Result<(), Fail> {
    let alloc = rt.alloc();
    for call in 0..33u64 {
        let film = grey_film(alloc, SQUARE, 384, 1)?;
        let failing = [call].to_vec(alloc)?;
        let mut studio = MemStudio::new(alloc, film, 1000, 4096, failing)?;
        let outcome = run_words(&rt, STORE, "", &mut studio, &OpenGate)?;
        assert_eq!(rt; outcome, failing_at(call));
        let written = studio.written(Out::Stream).len();
        assert_eq!(rt; written, if call <= 29 { 0 } else { 417 });
    }
    // A stream that is full.
    let film = grey_film(alloc, SQUARE, 384, 1)?;
    let mut studio = MemStudio::new(alloc, film, 100, 16, Vec::new(alloc))?;
    let outcome = run_words(&rt, STORE, "", &mut studio, &OpenGate)?;
    assert_eq!(rt; outcome, Outcome::Write(Out::Stream));
    assert_eq!(rt; studio.written(Out::Stream).len(), 100);
    assert!(rt; studio.written(Out::Stream).starts_with(&BEGIN));
    Ok(())
}

#[test]
fn real_files(rt: HostRuntime) -> Result<(), Fail> {
    let alloc = rt.alloc();
    let film = grey_film(alloc, SQUARE, 384, 1)?;
    fs::write(&rt, "encode_cli_test.y4m", film.as_slice())?;
    let stored = "store --in encode_cli_test.y4m --out encode_cli_test.264";
    let encoded =
        "encode --in encode_cli_test.y4m --bitrate 1000000 --out encode_cli_test.coded.264";
    let mut studio = RealStudio::new(&rt);
    for (front, more, wanted) in [
        (stored, "", Outcome::Done),
        (
            "store --in encode_cli_test.none --out /dev/null",
            "",
            Outcome::Open(Place::Input),
        ),
        (
            "store --in encode_cli_test.y4m --out /dev/full",
            "",
            Outcome::Write(Out::Stream),
        ),
        (
            encoded,
            "--recon /dev/full --report /dev/null",
            Outcome::Write(Out::Recon),
        ),
        (
            encoded,
            "--recon /dev/null --report /dev/full",
            Outcome::Write(Out::Report),
        ),
        (
            encoded,
            "--recon /dev/null --report /dev/null",
            Outcome::Done,
        ),
    ] {
        let outcome = run_words(&rt, front, more, &mut studio, &OpenGate)?;
        assert_eq!(rt; outcome, wanted, "{front} {more}");
    }
    let stream = fs::read(&rt, "encode_cli_test.264")?;
    assert!(rt; is_stored_grey(stream.as_slice()));
    let stream = fs::read(&rt, "encode_cli_test.coded.264")?;
    assert_eq!(rt; stream.as_slice().len(), 88);
    for name in [
        "encode_cli_test.y4m",
        "encode_cli_test.264",
        "encode_cli_test.coded.264",
    ] {
        fs::remove_file(&rt, name)?;
    }
    Ok(())
}
