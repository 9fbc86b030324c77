// Encodings over a studio in memory.
//
// What is awaited stands in the form of rows, or comes from a plain encoder by the same rules that shares nothing with
// this one; decoders of others show of its streams exactly its reconstructions.
ghost use Rattle.std.specs.Prelude.{true};

use crate::outcome::{Outcome, fault_line, status};
use crate::test_films::{OUTS, grey_film, moving_film, run_words, studio_of, sum_of};
use clap::error::ErrorKind;
use enc_edge::{Gate, MemStudio, OpenGate, Out, Place};
use encode_words::{SettingFault, WordFault};
use spec_film::{HeadFault, InputFault};
use std::sync::atomic::{AtomicU64, Ordering};
use std::test::Fail;

const ENCODE: &str = "encode --in=film --out stream --recon=recon --report report";

const SQUARE: &[u8] = b"YUV4MPEG2 W16 H16\n";

// A grey picture of 16 by 16 samples: the parameter sets, the messages on the buffer and the delays, and a slice of one
// macroblock without residual.
const UNIT: [u8; 88] = [
    0x00, 0x00, 0x00, 0x01, 0x67, 0x64, 0x00, 0x0D, 0xAC, 0x1B, 0x1A, 0xDE, 0x84, 0x00, 0x00, 0x03,
    0x00, 0x04, 0x00, 0x00, 0x03, 0x00, 0xCB, 0x80, 0x00, 0x03, 0xD0, 0x90, 0x00, 0x1E, 0x84, 0x9F,
    0xDE, 0xE0, 0x1E, 0x24, 0x4A, 0x70, 0x00, 0x00, 0x00, 0x01, 0x68, 0xEE, 0x38, 0xB0, 0x00, 0x00,
    0x01, 0x06, 0x00, 0x09, 0x80, 0x00, 0x57, 0xE4, 0x00, 0x00, 0x03, 0x00, 0x00, 0x40, 0x01, 0x06,
    0x00, 0x00, 0x03, 0x00, 0x00, 0x03, 0x00, 0x02, 0x80, 0x00, 0x00, 0x01, 0x65, 0x88, 0x80, 0x00,
    0x40, 0x00, 0x02, 0xFF, 0xFE, 0xD6, 0xDF, 0x80,
];

// The slice of such a picture, and that of one with four macroblocks.
const GREY_SLICE: [u8; 15] = [
    0x00, 0x00, 0x01, 0x65, 0x88, 0x80, 0x00, 0x40, 0x00, 0x02, 0xFF, 0xFE, 0xD6, 0xDF, 0x80,
];

const FOUR_MACROBLOCKS: [u8; 19] = [
    0x00, 0x00, 0x01, 0x65, 0x88, 0x80, 0x00, 0x40, 0x00, 0x02, 0xFF, 0xFE, 0xD6, 0xDC, 0xAD, 0x12,
    0xED, 0x97, 0x80,
];

// The coarsest slice of one macroblock.
const COARSEST: [u8; 14] = [
    0x00, 0x00, 0x01, 0x65, 0x88, 0x80, 0x00, 0x40, 0x00, 0x00, 0x65, 0xF1, 0xFF, 0x80,
];

// A P slice of one skipped macroblock at QP 26, and one at QP 25.
const SKIPPED: [u8; 12] = [
    0x00, 0x00, 0x01, 0x41, 0x9A, 0x00, 0x02, 0x00, 0x05, 0x9F, 0xA6, 0x80,
];

const SKIPPED_AT_25: [u8; 12] = [
    0x00, 0x00, 0x01, 0x41, 0x9A, 0x00, 0x02, 0x00, 0x05, 0x97, 0x9C, 0x80,
];

// A film of grey pictures, without its last byte where it is cut, what it is encoded with, how that ends, and what is
// then written: the lengths of the stream and of the reconstruction, a sum over all outputs, the stream's last bytes, and
// the report.
#[derive(Clone, Copy)]
struct Row<'a> {
    head: &'a [u8],
    samples: u32,
    pictures: u32,
    cut: bool,
    options: &'a str,
    outcome: Outcome,
    line: &'a str,
    stream: usize,
    sum: u64,
    end: &'a [u8],
    recon: usize,
    report: &'a str,
}

#[test]
fn grey_films(rt: HostRuntime) -> Result<(), Fail> {
    let alloc = rt.alloc();
    let rows = [
        // A head alone.
        Row {
            head: SQUARE,
            samples: 384,
            pictures: 0,
            cut: false,
            options: "--bitrate 1000000",
            outcome: Outcome::Done,
            line: "",
            stream: 0,
            sum: 0x9CC2DAD57FAB5A37,
            end: &[],
            recon: 32,
            report: "rate 1000000 cpb 1000000 delay 45000 level 13 slices 1\n\
             pictures 0 bits 0 comparisons 0\n",
        },
        // One picture.
        Row {
            head: SQUARE,
            samples: 384,
            pictures: 1,
            cut: false,
            options: "--bitrate 1000000",
            outcome: Outcome::Done,
            line: "",
            stream: 88,
            sum: 0xD0D2D46E726B121F,
            end: &UNIT,
            recon: 422,
            report: "rate 1000000 cpb 1000000 delay 45000 level 13 slices 1\n\
             0 0 I qp 24 plain bits 704 filler 0 have 500000\n\
             pictures 1 bits 704 comparisons 0\n",
        },
        // A P picture of one skipped macroblock at QP 26.
        Row {
            head: SQUARE,
            samples: 384,
            pictures: 2,
            cut: false,
            options: "--bitrate 1000000 --qp 27 --refs 1 --bframes 0",
            outcome: Outcome::Done,
            line: "",
            stream: 114,
            sum: 0x756777A6587BB821,
            end: &SKIPPED,
            recon: 812,
            report: "rate 1000000 cpb 1000000 delay 45000 level 13 slices 1\n\
             0 0 I qp 25 plain bits 688 filler 0 have 500000\n\
             1 1 P qp 26 plain bits 224 filler 0 have 539312\n\
             pictures 2 bits 912 comparisons 9\n",
        },
        // The same by the default: the QP falls behind a picture that took little.
        Row {
            head: SQUARE,
            samples: 384,
            pictures: 2,
            cut: false,
            options: "--bitrate 1000000 --refs 1 --bframes 0",
            outcome: Outcome::Done,
            line: "",
            stream: 116,
            sum: 0x1F7AD6CE4FBCD6AF,
            end: &SKIPPED_AT_25,
            recon: 812,
            report: "rate 1000000 cpb 1000000 delay 45000 level 13 slices 1\n\
             0 0 I qp 24 plain bits 704 filler 0 have 500000\n\
             1 1 P qp 25 plain bits 224 filler 0 have 539296\n\
             pictures 2 bits 928 comparisons 9\n",
        },
        // A width and a height that aren't multiples of 16.
        Row {
            head: b"YUV4MPEG2 W18 H18 F25:1 Ip A1:1 C420jpeg\n",
            samples: 486,
            pictures: 1,
            cut: false,
            options: "--bitrate 1000000",
            outcome: Outcome::Done,
            line: "",
            stream: 93,
            sum: 0x59E387A23C67EB2F,
            end: &FOUR_MACROBLOCKS,
            recon: 524,
            report: "rate 1000000 cpb 1000000 delay 45000 level 13 slices 1\n\
             0 0 I qp 24 plain bits 744 filler 0 have 500000\n\
             pictures 1 bits 744 comparisons 0\n",
        },
        // An odd width.
        Row {
            head: b"YUV4MPEG2 W17 H16\n",
            samples: 384,
            pictures: 1,
            cut: false,
            options: "--bitrate 1000000",
            outcome: Outcome::Input(InputFault::Head(HeadFault::OddSize)),
            line: "input refused",
            stream: 0,
            sum: 0xCBF29CE484222325,
            end: &[],
            recon: 0,
            report: "",
        },
        // The second picture lacks its last byte.
        Row {
            head: SQUARE,
            samples: 384,
            pictures: 2,
            cut: true,
            options: "--bitrate 1000000",
            outcome: Outcome::Input(InputFault::CutFrame {
                picture: 1,
                got: 389,
            }),
            line: "input refused at picture 1",
            stream: 88,
            sum: 0xA19FD4A9FD46AD0C,
            end: &UNIT,
            recon: 422,
            report: "rate 1000000 cpb 1000000 delay 45000 level 13 slices 1\n\
             0 0 I qp 24 plain bits 704 filler 0 have 500000\n",
        },
        // The least level for the rate of macroblocks; IDR pictures at 0 and 10.
        Row {
            head: b"YUV4MPEG2 W352 H288 F30000:1001 Ip A128:117 C420mpeg2 XYSCSS=420MPEG2\n",
            samples: 152064,
            pictures: 12,
            cut: false,
            options: "--bitrate 1000000 --idr 10",
            outcome: Outcome::Done,
            line: "",
            stream: 571,
            sum: 0xC20398C0035C7747,
            end: &[],
            recon: 1824880,
            report: "rate 1000000 cpb 1000000 delay 45000 level 13 slices 1\n\
             0 0 I qp 24 plain bits 1048 filler 0 have 500000\n\
             1 3 P qp 25 plain bits 248 filler 0 have 532318\n\
             2 1 B qp 26 plain bits 232 filler 0 have 565437\n\
             3 2 B qp 25 plain bits 240 filler 0 have 598572\n\
             4 6 P qp 22 plain bits 248 filler 0 have 631698\n\
             5 4 B qp 23 plain bits 240 filler 0 have 664817\n\
             6 5 B qp 22 plain bits 240 filler 0 have 697944\n\
             7 9 P qp 19 plain bits 248 filler 0 have 731070\n\
             8 7 B qp 20 plain bits 240 filler 0 have 764189\n\
             9 8 B qp 19 plain bits 240 filler 0 have 797316\n\
             10 10 I qp 14 plain bits 1080 filler 0 have 830442\n\
             11 11 P qp 15 plain bits 264 filler 0 have 862729\n\
             pictures 12 bits 4568 comparisons 64152\n",
        },
        // Groups of three and of two: display places 0, 3, 1, 2, 4, 6, 5 in coded order.
        Row {
            head: SQUARE,
            samples: 384,
            pictures: 7,
            cut: false,
            options: "--bitrate 1000000 --idr 4",
            outcome: Outcome::Done,
            line: "",
            stream: 313,
            sum: 0x92A36958DFC6807C,
            end: &[],
            recon: 2762,
            report: "rate 1000000 cpb 1000000 delay 45000 level 13 slices 1\n\
             0 0 I qp 24 plain bits 704 filler 0 have 500000\n\
             1 3 P qp 25 plain bits 216 filler 0 have 539296\n\
             2 1 B qp 26 plain bits 216 filler 0 have 579080\n\
             3 2 B qp 25 plain bits 224 filler 0 have 618864\n\
             4 4 I qp 20 plain bits 696 filler 0 have 658640\n\
             5 6 P qp 21 plain bits 224 filler 0 have 697944\n\
             6 5 B qp 22 plain bits 224 filler 0 have 737720\n\
             pictures 7 bits 2504 comparisons 72\n",
        },
        // A buffer of just a picture's share and 48 bits, and one that is smaller.
        Row {
            head: SQUARE,
            samples: 384,
            pictures: 0,
            cut: false,
            options: "--bitrate 64000 --cpb 2608",
            outcome: Outcome::Done,
            line: "",
            stream: 0,
            sum: 0x2D7621E81F12DA88,
            end: &[],
            recon: 32,
            report: "rate 64000 cpb 2608 delay 1833 level 10 slices 1\n\
             pictures 0 bits 0 comparisons 0\n",
        },
        Row {
            head: SQUARE,
            samples: 384,
            pictures: 0,
            cut: false,
            options: "--bitrate 64000 --cpb 2592",
            outcome: Outcome::Setting(SettingFault::SmallCpb),
            line: "setting refused",
            stream: 0,
            sum: 0xCBF29CE484222325,
            end: &[],
            recon: 0,
            report: "",
        },
        // Filler keeps such a buffer from overflowing: 19,976 bits, then twice 40,000.
        Row {
            head: SQUARE,
            samples: 384,
            pictures: 3,
            cut: false,
            options: "--bitrate 1000000 --cpb 40048",
            outcome: Outcome::Done,
            line: "",
            stream: 12497,
            sum: 0xFCD54F689226E7CF,
            end: &[],
            recon: 1202,
            report: "rate 1000000 cpb 40048 delay 1802 level 13 slices 1\n\
             0 0 I qp 24 plain bits 696 filler 19280 have 20022\n\
             1 2 P qp 25 plain bits 216 filler 39784 have 40046\n\
             2 1 B qp 26 plain bits 216 filler 39784 have 40046\n\
             pictures 3 bits 99976 comparisons 27\n",
        },
        // Pictures that don't fit.
        Row {
            head: SQUARE,
            samples: 384,
            pictures: 1,
            cut: false,
            options: "--bitrate 64",
            outcome: Outcome::Buffer {
                picture: 0,
                need: 640,
                have: 32,
            },
            line: "picture 0 needs 640 bits of 32",
            stream: 0,
            sum: 0xACF5649CC3EB0833,
            end: &[],
            recon: 32,
            report: "rate 64 cpb 64 delay 45000 level 10 slices 1\n",
        },
        Row {
            head: SQUARE,
            samples: 384,
            pictures: 2,
            cut: false,
            options: "--bitrate 64 --cpb 2048 --idr 1",
            outcome: Outcome::Buffer {
                picture: 1,
                need: 664,
                have: 362,
            },
            line: "picture 1 needs 664 bits of 362",
            stream: 83,
            sum: 0xA0519AD5088255C4,
            end: &GREY_SLICE,
            recon: 422,
            report: "rate 64 cpb 2048 delay 1440000 level 10 slices 1\n\
             0 0 I qp 24 plain bits 664 filler 0 have 1024\n",
        },
    ];
    for row in rows {
        let mut film = grey_film(alloc, row.head, row.samples, row.pictures)?;
        if row.cut {
            let _ = film.pop();
        }
        let options = row.options;
        let mut studio = studio_of(alloc, film)?;
        let outcome = run_words(&rt, ENCODE, options, &mut studio, &OpenGate)?;
        assert_eq!(rt; outcome, row.outcome, "{options}");
        assert_eq!(rt; fault_line(&outcome).as_str(), row.line);
        assert_eq!(rt; studio.written(Out::Stream).len(), row.stream);
        assert!(rt; studio.written(Out::Stream).ends_with(row.end));
        assert_eq!(rt; studio.written(Out::Recon).len(), row.recon);
        assert_eq!(rt; studio.written(Out::Report), row.report.as_bytes());
        assert_eq!(rt; sum_of(&studio), row.sum, "{options}");
    }
    Ok(())
}

// Options, and the sums over what is written of two films that move, of 32 by 48 and 34 by 50 samples.
const OPTIONS: [(&str, [u64; 2]); 27] = [
    (
        "--bitrate 1000000",
        [0x637A71894A90AD63, 0x023878AF282A0978],
    ),
    (
        "--bitrate 1000000 --qp 0",
        [0x015A5AA57E1D0BF0, 0xA0A00EE20DFA4184],
    ),
    (
        "--bitrate 1000000 --qp=13",
        [0x405BE14A8BDA4E8C, 0xF9801E892E3134AA],
    ),
    (
        "--bitrate 1000000 --qp 38",
        [0x320995E7B6634CB2, 0x50824DAE3EF2753E],
    ),
    (
        "--bitrate 1000000 --qp 51",
        [0x88F44C356A18466D, 0xBB0371F2030FEAC2],
    ),
    (
        "--bitrate 1000000 --refs 1 --bframes 0",
        [0x627D294A9AED19FA, 0x91D68734B01547BB],
    ),
    (
        "--bitrate 1000000 --refs 3",
        [0x26FA2E6152902C82, 0x3A9D60395B6FF247],
    ),
    (
        "--bitrate 1000000 --refs=4",
        [0x4F7D1A8A040A94B2, 0xE145DA6281BA2D6F],
    ),
    (
        "--bitrate 1000000 --bframes 0",
        [0xE0A69764BF29C817, 0xAE3821F5A51455C0],
    ),
    (
        "--bitrate 1000000 --bframes 1",
        [0x13814EBE5403A944, 0xB393C836344466B9],
    ),
    (
        "--bitrate 1000000 --bframes=4",
        [0x78DE476BCA348D8D, 0xF63FD7B9E8E83066],
    ),
    (
        "--bitrate 1000000 --idr 1",
        [0x86CD7BD79D392E2A, 0x87C3D87C100C05AA],
    ),
    (
        "--bitrate 1000000 --idr=3",
        [0x73A4A05673190038, 0x7B927E66FDEF5FE3],
    ),
    (
        "--bitrate 1000000 --range 1",
        [0xA20FC865FDC07C7F, 0x208EE5582CDECCAE],
    ),
    (
        "--bitrate 1000000 --range=32",
        [0x45B15DF575486E53, 0x3D45F4818F0FE1DE],
    ),
    (
        "--bitrate 1000000 --slices 2",
        [0x3A65C6F5907A8594, 0x394B8C5A7BC93533],
    ),
    (
        "--bitrate 1000000 --slices=3",
        [0xB9EDA0C43C799148, 0xA332FDEC4A478BDA],
    ),
    (
        "--bitrate 1000000 --workers 3",
        [0x637A71894A90AD63, 0x023878AF282A0978],
    ),
    (
        "--bitrate 1000000 --level 40",
        [0x5B181CB2FF778B02, 0x6F358285E04FCF17],
    ),
    (
        "--bitrate 1000000 --level=51",
        [0x517274E013A0B5D7, 0x382416C77A8CA3B8],
    ),
    (
        "--bitrate 1000000 --cpb 60000",
        [0xB59CCE1D579F2348, 0xC4CB3F0D06F49639],
    ),
    (
        "--bitrate 1000000 --cpb=200000",
        [0xFFCB470278E5141E, 0xEF994E63F7902271],
    ),
    (
        "--bitrate 1000000 --delay 9000",
        [0x21F08AB96D640D17, 0x96910659E75AAE68],
    ),
    (
        "--bitrate 1000000 --t8x8 off",
        [0x060EB6458D5160AD, 0x1C5F3CCD7CED4BA3],
    ),
    (
        "--bitrate 100000 --cpb 12000",
        [0x95E2D874137F1D47, 0x794285D1AD425932],
    ),
    (
        "--bitrate=40000 --cpb=8000 --slices 2",
        [0xBF371B0E2E359867, 0xF8B17264FFCC9E3D],
    ),
    (
        "--bitrate 40000 --refs 4 --bframes 1 --idr 4 --range 5 --qp 30",
        [0x9FAE401CC101266A, 0xA9AAC5BD3AA2BFFC],
    ),
];

const TRIAL: &str =
    "trial --out stream --recon recon --report report --seed 7 --width 64 --height 64 --pictures 9 --slices 4 --bitrate 2000000";

#[test]
fn moving_films(rt: HostRuntime) -> Result<(), Fail> {
    let alloc = rt.alloc();
    let films = [
        moving_film(alloc, b"YUV4MPEG2 W32 H48 F30:1\n", 32, 48, 5)?,
        moving_film(
            alloc,
            b"YUV4MPEG2 W34 H50 F30000:1001 Ip C420jpeg\n",
            34,
            50,
            5,
        )?,
    ];
    for (options, sums) in OPTIONS {
        for k in 0..2 {
            let mut studio = studio_of(alloc, films[k].as_slice().to_vec(alloc)?)?;
            let outcome = run_words(&rt, ENCODE, options, &mut studio, &OpenGate)?;
            assert_eq!(rt; outcome, Outcome::Done, "{options}");
            assert_eq!(rt; sum_of(&studio), sums[k], "{options}");
        }
    }
    // A picture that only the coarsest coding lets through.
    let mut studio = studio_of(alloc, moving_film(alloc, SQUARE, 16, 16, 1)?)?;
    let outcome = run_words(&rt, ENCODE, "--bitrate 1344", &mut studio, &OpenGate)?;
    assert_eq!(rt; outcome, Outcome::Done);
    assert!(rt; studio.written(Out::Stream).ends_with(&COARSEST));
    assert_eq!(rt; sum_of(&studio), 0x77832A4D47A582CB);
    // A film that is made from a number: the same again, and by any number of threads.
    for options in ["", "", "--workers 2", "--workers 7", "--workers 64"] {
        let mut studio = studio_of(alloc, Vec::new(alloc))?;
        let outcome = run_words(&rt, TRIAL, options, &mut studio, &OpenGate)?;
        assert_eq!(rt; outcome, Outcome::Done, "{options}");
        assert_eq!(rt; sum_of(&studio), 0xA188_0760_FF9F_5543, "{options}");
    }
    Ok(())
}

// Two grey pictures, of which the second is a P picture.
const SHORT: &str = "--bitrate 1000000 --qp 27 --refs 1 --bframes 0";

// The calls of that run where each moves at most 16 bytes: the input is opened, the head's 18 bytes are read one by one,
// the outputs are opened; 32 bytes of the reconstruction's head and 55 of the report's first line are written; then, for
// each picture, its line of six bytes is read one by one and 384 samples, and its unit of 86 or 28 bytes, its line of 48
// bytes and 390 bytes of reconstruction are written; the input's end is read, a line of 34 bytes written, and the
// outputs are closed.
fn failing_at(call: u64) -> Outcome {
    match call {
        0 => Outcome::Open(Place::Input),
        1..=18 | 28..=57 | 92..=121 | 152 => Outcome::Read,
        19 => Outcome::Open(Place::Output(Out::Stream)),
        20 => Outcome::Open(Place::Output(Out::Recon)),
        21 => Outcome::Open(Place::Output(Out::Report)),
        58..=63 | 122..=123 | 156 => Outcome::Write(Out::Stream),
        22..=23 | 67..=91 | 127..=151 | 157 => Outcome::Write(Out::Recon),
        24..=27 | 64..=66 | 124..=126 | 153..=155 | 158 => Outcome::Write(Out::Report),
        _ => Outcome::Done,
    }
}

// How much of the stream stands then.
fn stream_at(call: u64) -> usize {
    match call {
        0..=58 => 0,
        59 => 16,
        60 => 32,
        61 => 48,
        62 => 64,
        63 => 80,
        64..=122 => 86,
        123 => 102,
        _ => 114,
    }
}

#[test]
fn each_call_of_encoding_fails_in_turn(rt: HostRuntime) -> Result<(), Fail> {
    let alloc = rt.alloc();
    let film = grey_film(alloc, SQUARE, 384, 2)?;
    let mut whole = studio_of(alloc, film.as_slice().to_vec(alloc)?)?;
    let outcome = run_words(&rt, ENCODE, SHORT, &mut whole, &OpenGate)?;
    assert_eq!(rt; outcome, Outcome::Done);
    for call in 0..160u64 {
        let copy = film.as_slice().to_vec(alloc)?;
        let mut studio = MemStudio::new(alloc, copy, 10_000, 16, [call].to_vec(alloc)?)?;
        let outcome = run_words(&rt, ENCODE, SHORT, &mut studio, &OpenGate)?;
        assert_eq!(rt; outcome, failing_at(call), "call {call}");
        assert_eq!(rt; studio.written(Out::Stream).len(), stream_at(call));
        for out in OUTS {
            assert!(rt; whole.written(out).starts_with(studio.written(out)));
        }
    }
    Ok(())
}

// A gate that counts how often each of three rows entered, and how often any other.
#[derive(Drop)]
struct CountingGate {
    rows: [AtomicU64; 3],
    others: AtomicU64,
}

impl Gate for CountingGate {
    ghost let_in = { λ gate row. true };

    fn enter(&self, row: u32) {
        let count = self.rows.get(row as usize).unwrap_or(&self.others);
        count.fetch_add(1, Ordering::SeqCst);
    }
}

// Each row of each picture is planned once, also where a picture is coded again by a coarser QP.
#[test]
fn each_row_enters_the_gate_once(rt: HostRuntime) -> Result<(), Fail> {
    let alloc = rt.alloc();
    for (options, pictures) in [
        ("--bitrate 1000000 --slices 2", 1),
        ("--bitrate 40000 --cpb 8000 --qp 0 --slices 2", 3),
    ] {
        let film = moving_film(alloc, b"YUV4MPEG2 W16 H48\n", 16, 48, pictures)?;
        let mut studio = studio_of(alloc, film)?;
        let gate = CountingGate {
            rows: [AtomicU64::new(0), AtomicU64::new(0), AtomicU64::new(0)],
            others: AtomicU64::new(0),
        };
        let outcome = run_words(&rt, ENCODE, options, &mut studio, &gate)?;
        assert_eq!(rt; outcome, Outcome::Done);
        for count in &gate.rows {
            assert_eq!(rt; count.load(Ordering::SeqCst), pictures as u64);
        }
        assert_eq!(rt; gate.others.load(Ordering::SeqCst), 0);
    }
    Ok(())
}

// Whatever the film is, it isn't opened: the call that would open it fails.
#[test]
fn refused_before_the_film(rt: HostRuntime) -> Result<(), Fail> {
    let alloc = rt.alloc();
    let twice = Outcome::Words(WordFault::Refused(ErrorKind::ArgumentConflict));
    let missing = Outcome::Words(WordFault::Refused(ErrorKind::MissingRequiredArgument));
    for (front, options, wanted, ended, line) in [
        (
            "",
            "",
            Outcome::Words(WordFault::NoCommand),
            2,
            "words refused",
        ),
        (
            "shop",
            "",
            Outcome::Words(WordFault::UnknownCommand),
            2,
            "words refused",
        ),
        (ENCODE, "", missing, 2, "words refused"),
        (
            ENCODE,
            "--bitrate 1000000 --qp 26 --qp=26",
            twice,
            2,
            "words refused",
        ),
        (
            ENCODE,
            "--bitrate 1000000 --refs 1",
            Outcome::Setting(SettingFault::Refs),
            4,
            "setting refused",
        ),
        (
            ENCODE,
            "--bitrate 1000000 --cpb 100000016",
            Outcome::Setting(SettingFault::BigCpb),
            4,
            "setting refused",
        ),
        (
            ENCODE,
            "--bitrate 1000000",
            Outcome::Open(Place::Input),
            8,
            "open failed: input",
        ),
        // The film of a trial isn't opened: the call opens the stream.
        (
            TRIAL,
            "",
            Outcome::Open(Place::Output(Out::Stream)),
            8,
            "open failed: stream",
        ),
    ] {
        let failing = [0].to_vec(alloc)?;
        let mut studio = MemStudio::new(alloc, Vec::new(alloc), 1000, 4096, failing)?;
        let outcome = run_words(&rt, front, options, &mut studio, &OpenGate)?;
        assert_eq!(rt; outcome, wanted, "{front} {options}");
        assert_eq!(rt; status(&outcome), ended);
        assert_eq!(rt; fault_line(&outcome).as_str(), line);
    }
    Ok(())
}
