// Settings, the names of outputs, and films from a number.
ghost use Rattle.std.specs.Prelude.{◌≡◌, ◌≤◌, IfErr, IfOk};
ghost use Rattle.clap.specs.Words.{found_of, rows_of};
ghost use Rattle.spec_words.specs.Choices.{cpb_of as cpb_of_rows, delay_of as delay_of_rows, early_of, made_of as made_of_rows, outputs_of as outputs_of_rows, rate_of as rate_of_rows, settings_of as settings_of_rows};

use crate::values::{given_number, name_of, number_of, text_of};
use clap::ArgMatches;
use spec_words::command::{Made, Outputs, SettingFault, Settings, WordsEnd};
use std::alloc::Global;

// The most bits that a coded picture buffer may have.
const MOST_CPB: u32 = 100_000_000;

// The bit rate in bits a second, as a multiple of 64.
#[tactic(auto, unfolding(spec_words::specs::Choices::rate_of))]
fn rate_of(matches: &ArgMatches<'_>) -> u32
    ensures rate { result ≡ rate_of_rows (rows_of (found_of matches.now)) }
    ensures within { (64 ≤ result) × (result ≤ 360000000) }
{
    (number_of(matches, 64, 360_000_000, "bitrate") / 64 * 64) as u32
}

// The size of the coded picture buffer in bits, as a multiple of 16; where none is given, the rate is its size.
#[tactic(auto, unfolding(spec_words::specs::Choices::cpb_of))]
fn cpb_of(matches: &ArgMatches<'_>, rate: u32) -> u32
    ensures cpb { result ≡ cpb_of_rows rate (rows_of (found_of matches.now)) }
    ensures within { result ≤ 4000000000 }
{
    let bits = match given_number(matches, 16, 4_000_000_000, "cpb") {
        Some(bits) => bits,
        None => rate.min(MOST_CPB) as u64,
    };
    (bits / 16 * 16) as u32
}

// The first delay in 1/90000 of a second; where none is given, half the buffer is filled in it.
#[tactic(auto, unfolding(spec_words::specs::Choices::delay_of))]
fn delay_of(matches: &ArgMatches<'_>, rate: u32, cpb: u32) -> u32
    requires { 64 ≤ rate }
    ensures { result ≡ delay_of_rows rate cpb (rows_of (found_of matches.now)) }
{
    let delay = match given_number(matches, 0, 4_294_967_295, "delay") {
        Some(delay) => delay,
        None => (90_000 * cpb as u64 / (2 * rate as u64)).min(4_294_967_295),
    };
    delay as u32
}

/// The settings that the options say, with the defaults filled in.
#[tactic(auto, unfolding(spec_words::specs::Choices::settings_of))]
pub fn settings_of(matches: &ArgMatches<'_>) -> Settings
    ensures { result ≡ settings_of_rows (rows_of (found_of matches.now)) }
{
    let rate = rate_of(matches);
    let cpb = cpb_of(matches, rate);
    Settings {
        rate,
        cpb,
        delay: delay_of(matches, rate, cpb),
        qp: number_of(matches, 0, 51, "qp") as u8,
        refs: number_of(matches, 1, 4, "refs") as u32,
        bframes: number_of(matches, 0, 4, "bframes") as u32,
        idr: number_of(matches, 1, 600, "idr") as u32,
        range: number_of(matches, 1, 32, "range") as u32,
        slices: number_of(matches, 1, 255, "slices") as u32,
        workers: number_of(matches, 1, 64, "workers") as u32,
        level: number_of(matches, 0, 255, "level") as u8,
        t8x8: text_of(matches, "t8x8") == "on",
    }
}

/// The names of what an encoding writes. The error is always `OutOfMemory`.
#[tactic(auto, unfolding(spec_words::specs::Choices::outputs_of))]
pub fn outputs_of(alloc: Global, matches: &ArgMatches<'_>) -> Result<Outputs, WordsEnd>
    ensures outputs { IfOk result (λ outputs. outputs ≡ outputs_of_rows (rows_of (found_of matches.now))) }
    ensures memory { IfErr result (λ end. end ≡ WordsEnd.OutOfMemory) }
{
    let stream = name_of(alloc, matches, "out")?;
    let recon = name_of(alloc, matches, "recon")?;
    let report = name_of(alloc, matches, "report")?;
    Ok(Outputs {
        stream,
        recon,
        report,
    })
}

/// The film that is made from a number.
#[tactic(auto, unfolding(spec_words::specs::Choices::made_of))]
pub fn made_of(matches: &ArgMatches<'_>) -> Made
    ensures { result ≡ made_of_rows (rows_of (found_of matches.now)) }
{
    Made {
        seed: number_of(matches, 0, u64::MAX, "seed"),
        width: number_of(matches, 16, 1920, "width") as u32,
        height: number_of(matches, 16, 1088, "height") as u32,
        count: number_of(matches, 0, 300, "pictures") as u32,
    }
}

/// The first fault of settings that needs no film: `Refs` where one reference picture is held and there are to be B
/// pictures, `BigCpb` where the coded picture buffer has more than 100,000,000 bits, and none otherwise.
#[tactic(auto, unfolding(spec_words::specs::Choices::early_of))]
pub fn early(settings: &Settings) -> Option<SettingFault>
    ensures { result ≡ early_of settings.now }
{
    if settings.refs == 1 && settings.bframes != 0 {
        return Some(SettingFault::Refs);
    }
    if settings.cpb > MOST_CPB {
        return Some(SettingFault::BigCpb);
    }
    None
}
