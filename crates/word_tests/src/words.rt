// Words of each kind. The kinds of refusals are those of the Rust crate clap 4.
use clap::error::ErrorKind;
use encode_words::{Command, SettingFault, Settings, WordFault, WordsEnd, early, settings};
use std::alloc::{AllocError, Global};
use std::test::Fail;

const ENCODE: [&str; 8] = [
    "encode",
    "--in",
    "film",
    "--out",
    "stream",
    "--recon=shown",
    "--report=",
    "--bitrate=1000",
];

// Each word but the first is one option that has to be there.
const TRIAL: [&str; 9] = [
    "trial",
    "--out=stream",
    "--recon=shown",
    "--report=lines",
    "--bitrate=1000000",
    "--seed=7",
    "--width=64",
    "--height=48",
    "--pictures=9",
];

// The settings of `TRIAL`.
const USUAL: Settings = Settings {
    rate: 1_000_000,
    cpb: 1_000_000,
    delay: 45_000,
    qp: 26,
    refs: 2,
    bframes: 2,
    idr: 250,
    range: 16,
    slices: 1,
    workers: 1,
    level: 0,
    t8x8: true,
};

// Options, their least and most numbers, and the numbers beside these.
const BOUNDS: [[&str; 5]; 15] = [
    [
        "--bitrate",
        "--bitrate=64",
        "--bitrate=360000000",
        "--bitrate=63",
        "--bitrate=360000001",
    ],
    [
        "--seed",
        "--seed=0",
        "--seed=18446744073709551615",
        "--seed=-1",
        "--seed=18446744073709551616",
    ],
    [
        "--width",
        "--width=16",
        "--width=1920",
        "--width=15",
        "--width=1921",
    ],
    [
        "--height",
        "--height=16",
        "--height=1088",
        "--height=15",
        "--height=1089",
    ],
    [
        "--pictures",
        "--pictures=0",
        "--pictures=300",
        "--pictures=-1",
        "--pictures=301",
    ],
    [
        "--cpb",
        "--cpb=16",
        "--cpb=4000000000",
        "--cpb=15",
        "--cpb=4000000001",
    ],
    [
        "--delay",
        "--delay=0",
        "--delay=4294967295",
        "--delay=-1",
        "--delay=4294967296",
    ],
    ["--qp", "--qp=0", "--qp=51", "--qp=-1", "--qp=52"],
    ["--refs", "--refs=1", "--refs=4", "--refs=0", "--refs=5"],
    [
        "--bframes",
        "--bframes=0",
        "--bframes=4",
        "--bframes=-1",
        "--bframes=5",
    ],
    ["--idr", "--idr=1", "--idr=600", "--idr=0", "--idr=601"],
    [
        "--range",
        "--range=1",
        "--range=32",
        "--range=0",
        "--range=33",
    ],
    [
        "--slices",
        "--slices=1",
        "--slices=255",
        "--slices=0",
        "--slices=256",
    ],
    [
        "--workers",
        "--workers=1",
        "--workers=64",
        "--workers=0",
        "--workers=65",
    ],
    [
        "--level",
        "--level=0",
        "--level=255",
        "--level=-1",
        "--level=256",
    ],
];

// What words behind those of `TRIAL` are refused for.
const STRAY: [(&[&str], ErrorKind); 22] = [
    (&["--qp", "26", "--qp", "26"], ErrorKind::ArgumentConflict),
    (
        &["--qp=26", "--refs=2", "--qp=26"],
        ErrorKind::ArgumentConflict,
    ),
    (&["--qp"], ErrorKind::InvalidValue),
    (&["--qp", "-1"], ErrorKind::UnknownArgument),
    (&["--qp", "--refs=2"], ErrorKind::InvalidValue),
    (&["--qp="], ErrorKind::ValueValidation),
    (&["--qp", ""], ErrorKind::ValueValidation),
    (&["--qp=-0"], ErrorKind::ValueValidation),
    (&["--qp=+"], ErrorKind::ValueValidation),
    (&["--qp=2 6"], ErrorKind::ValueValidation),
    (&["--qp=26x"], ErrorKind::ValueValidation),
    (&["--qp=0x1a"], ErrorKind::ValueValidation),
    (&["--qp=99999999999999999999"], ErrorKind::ValueValidation),
    (&["--t8x8=On"], ErrorKind::InvalidValue),
    (&["--t8x8", ""], ErrorKind::InvalidValue),
    (&["on"], ErrorKind::UnknownArgument),
    (&["--", "on"], ErrorKind::UnknownArgument),
    (&["--in=film"], ErrorKind::UnknownArgument),
    (&["--q=26"], ErrorKind::UnknownArgument),
    (&["-q", "26"], ErrorKind::UnknownArgument),
    (&["--version"], ErrorKind::UnknownArgument),
    (&["--help"], ErrorKind::DisplayHelp),
];

// What these words mean, and more behind them. All are read here, so that no test's proof goes through what clap does with its words.
fn command_of<'a>(alloc: Global, words: &[&'a str], more: &[&'a str]) -> Result<Command, WordsEnd> {
    let Ok(mut all) = words.to_vec(alloc) else {
        return Err(WordsEnd::OutOfMemory);
    };
    match all.extend_from_slice(more) {
        Ok(()) => settings(alloc, &all),
        Err(_) => Err(WordsEnd::OutOfMemory),
    }
}

// The fault of these words, if any.
fn fault_of<'a>(alloc: Global, words: &[&'a str], more: &[&'a str]) -> Option<WordFault> {
    match command_of(alloc, words, more) {
        Err(WordsEnd::Fault(fault)) => Some(fault),
        _ => None,
    }
}

// The settings that these words give, if any.
fn settings_of<'a>(alloc: Global, words: &[&'a str], more: &[&'a str]) -> Option<Settings> {
    match command_of(alloc, words, more) {
        Ok(Command::Encode { settings, .. }) => Some(settings),
        Ok(Command::Trial { settings, .. }) => Some(settings),
        _ => None,
    }
}

// The words of `TRIAL`, but for the option of this name.
fn trial_without(alloc: Global, name: &str) -> Result<Vec<&'static str>, AllocError> {
    let mut words = Vec::new(alloc);
    for word in TRIAL {
        if !word.starts_with(name) {
            words.push(word)?;
        }
    }
    Ok(words)
}

#[test]
fn commands(rt: HostRuntime) -> Result<(), Fail> {
    let alloc = rt.alloc();
    assert_eq!(rt; fault_of(alloc, &[], &[]), Some(WordFault::NoCommand));
    for word in ["", "Store", "stores", "--in", "help"] {
        assert_eq!(rt;
            fault_of(alloc, &[word], &[]),
            Some(WordFault::UnknownCommand)
        );
    }
    let store = ["store", "--out", "b c", "--in=--a"];
    let Ok(Command::Store { input, output }) = command_of(alloc, &store, &[]) else {
        return Ok(assert!(rt; false, "a film is to be stored"));
    };
    assert_eq!(rt; (input.as_str(), output.as_str()), ("--a", "b c"));
    let Ok(Command::Encode { input, outputs, .. }) = command_of(alloc, &ENCODE, &[]) else {
        return Ok(assert!(rt; false, "a film is to be encoded"));
    };
    assert_eq!(rt;
        (input.as_str(), outputs.stream.as_str()),
        ("film", "stream")
    );
    assert_eq!(rt;
        (outputs.recon.as_str(), outputs.report.as_str()),
        ("shown", "")
    );
    let Ok(
        Command::Trial {
            made,
            settings: read,
            ..
        },
    ) = command_of(alloc, &TRIAL, &[])
    else {
        return Ok(assert!(rt; false, "a film from a number is to be encoded"));
    };
    assert_eq!(rt;
        (made.seed, made.width, made.height, made.count),
        (7, 64, 48, 9)
    );
    assert_eq!(rt; read, USUAL);
    Ok(())
}

// All settings, and the bit rate, the buffer and the delay alone, of which the defaults follow from the rounded numbers.
#[test]
fn numbers(rt: HostRuntime) -> Result<(), Fail> {
    let all = [
        "--t8x8",
        "off",
        "--level=31",
        "--workers",
        "7",
        "--slices=+4",
        "--range",
        "08",
        "--idr=600",
        "--bframes",
        "0",
        "--refs=1",
        "--qp",
        "51",
        "--delay=3",
        "--cpb",
        "40063",
    ];
    assert_eq!(rt;
        settings_of(rt.alloc(), &TRIAL, &all),
        Some(Settings {
            rate: 1_000_000,
            cpb: 40_048,
            delay: 3,
            qp: 51,
            refs: 1,
            bframes: 0,
            idr: 600,
            range: 8,
            slices: 4,
            workers: 7,
            level: 31,
            t8x8: false
        })
    );
    let rows = [
        ("--bitrate=1000", "--qp=26", (960, 960, 45_000)),
        ("--bitrate=1000", "--cpb=1000", (960, 992, 46_500)),
        ("--bitrate=1000", "--delay=9", (960, 960, 9)),
        ("--bitrate=64", "--cpb=2048", (64, 2_048, 1_440_000)),
        ("--bitrate=64000", "--cpb=2608", (64_000, 2_608, 1_833)),
        (
            "--bitrate=1000000",
            "--cpb=40048",
            (1_000_000, 40_048, 1_802),
        ),
        (
            "--bitrate=360000000",
            "--qp=26",
            (360_000_000, 100_000_000, 12_500),
        ),
        (
            "--bitrate=127",
            "--cpb=4000000000",
            (64, 4_000_000_000, 4_294_967_295),
        ),
    ];
    let words = trial_without(rt.alloc(), "--bitrate")?;
    for (bit_rate, word, want) in rows {
        let read = settings_of(rt.alloc(), &words, &[bit_rate, word]).unwrap_or(USUAL);
        assert_eq!(rt; (read.rate, read.cpb, read.delay), want);
    }
    Ok(())
}

#[test]
fn bounds(rt: HostRuntime) -> Result<(), Fail> {
    let alloc = rt.alloc();
    let out_of_bounds = Some(WordFault::Refused(ErrorKind::ValueValidation));
    for [name, least, most, below, above] in BOUNDS {
        let words = trial_without(alloc, name)?;
        for word in [least, most] {
            assert!(rt; command_of(alloc, &words, &[word]).is_ok());
        }
        for word in [below, above] {
            assert_eq!(rt; fault_of(alloc, &words, &[word]), out_of_bounds);
        }
    }
    Ok(())
}

#[test]
fn refusals(rt: HostRuntime) {
    let alloc = rt.alloc();
    for (more, kind) in STRAY {
        assert_eq!(rt;
            fault_of(alloc, &TRIAL, more),
            Some(WordFault::Refused(kind))
        );
    }
    let store: [(&[&str], ErrorKind); 3] = [
        (&["--in=a"], ErrorKind::MissingRequiredArgument),
        (&["--in=a", "--out"], ErrorKind::InvalidValue),
        (
            &["--in=a", "--out=b", "--qp=26"],
            ErrorKind::UnknownArgument,
        ),
    ];
    for (more, kind) in store {
        assert_eq!(rt;
            fault_of(alloc, &["store"], more),
            Some(WordFault::Refused(kind))
        );
    }
    let twice = Some(WordFault::Refused(ErrorKind::ArgumentConflict));
    let missing = Some(WordFault::Refused(ErrorKind::MissingRequiredArgument));
    for place in 1..TRIAL.len() {
        assert_eq!(rt; fault_of(alloc, &TRIAL, &[TRIAL[place]]), twice);
        assert_eq!(rt;
            fault_of(alloc, &TRIAL[..place], &TRIAL[place + 1..]),
            missing
        );
    }
}

#[test]
fn settings_refused_early(rt: HostRuntime) {
    let one = Settings { refs: 1, ..USUAL };
    let alone = Settings { bframes: 0, ..one };
    assert_eq!(rt; early(&USUAL), None);
    assert_eq!(rt; early(&one), Some(SettingFault::Refs));
    assert_eq!(rt; early(&alone), None);
    for (cpb, fault) in [
        (100_000_000, None),
        (100_000_016, Some(SettingFault::BigCpb)),
    ] {
        assert_eq!(rt; early(&Settings { cpb, ..alone }), fault);
        assert_eq!(rt; early(&Settings { cpb, ..one }), Some(SettingFault::Refs));
    }
}
