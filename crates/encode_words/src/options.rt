// The options of each command, and what clap makes of words by them.
ghost use Rattle.std.specs.Prelude.{◌≡◌, ◌∷◌, [], codes, false, map, IfOk};
ghost use Rattle.clap.specs.Words.{app_of, rule_of};
ghost use Rattle.spec_words.specs.Options.{bounded_rule, choice_rule, encode_app, number_rule, on_off, store_app, text_rule, trial_app, usual_rule, with_buffer, with_coding, with_input, with_made, with_outputs, with_settings, with_transforms, with_work};
ghost use Rattle.encode_words.specs.Reads.{ReadsAs};

use clap::builder::ValueParser;
use clap::{Arg, ArgMatches, Command, Error};
use std::alloc::{AllocError, Global};

static SWITCH: [&str; 2] = ["on", "off"];

// What a switch may say.
fn switch() -> &'static [&'static str]
    ensures { map (λ name. name.now) result.now ≡ codes "on" ∷ codes "off" ∷ [] }
{
    SWITCH.as_slice()
}

// An option that has to have a text.
fn text<'a>(alloc: Global, name: &'a str) -> Arg<'a>
    ensures rule { rule_of result ≡ text_rule name.entry.now }
    ensures local { result.global ≡ false }
{
    Arg::new(alloc, name).long(name).required(true)
}

// An option that may have a number from `low` to `high`.
fn bounded<'a>(alloc: Global, name: &'a str, low: u64, high: u64) -> Arg<'a>
    ensures rule { rule_of result ≡ bounded_rule name.entry.now low high }
    ensures local { result.global ≡ false }
{
    Arg::new(alloc, name)
        .long(name)
        .value_parser(ValueParser::Unsigned(low, high))
}

// An option that has to have a number from `low` to `high`.
fn number<'a>(alloc: Global, name: &'a str, low: u64, high: u64) -> Arg<'a>
    ensures rule { rule_of result ≡ number_rule name.entry.now low high }
    ensures local { result.global ≡ false }
{
    bounded(alloc, name, low, high).required(true)
}

// An option that may have a number from `low` to `high`, and else has the one that `usual` writes.
fn usual<'a>(alloc: Global, name: &'a str, low: u64, high: u64, usual: &'a str) -> Arg<'a>
    ensures rule { rule_of result ≡ usual_rule name.entry.now low high usual.entry.now }
    ensures local { result.global ≡ false }
{
    bounded(alloc, name, low, high).default_value(usual)
}

// An option that may have one of these names, and else has `usual`.
fn choice<'a>(alloc: Global, name: &'a str, names: &'a [&'a str], usual: &'a str) -> Arg<'a>
    ensures rule { rule_of result ≡ choice_rule name.entry.now names.entry usual.entry.now }
    ensures local { result.global ≡ false }
{
    Arg::new(alloc, name)
        .long(name)
        .value_parser(ValueParser::Names(names))
        .default_value(usual)
}

fn outputs<'a>(alloc: Global, command: Command<'a>) -> Result<Command<'a>, AllocError>
    ensures { IfOk result (λ made. app_of made ≡ with_outputs (app_of command.entry)) }
{
    command
        .arg(text(alloc, "out"))?
        .arg(text(alloc, "recon"))?
        .arg(text(alloc, "report"))
}

fn film<'a>(alloc: Global, command: Command<'a>) -> Result<Command<'a>, AllocError>
    ensures { IfOk result (λ made. app_of made ≡ with_made (app_of command.entry)) }
{
    command
        .arg(number(alloc, "seed", 0, u64::MAX))?
        .arg(number(alloc, "width", 16, 1920))?
        .arg(number(alloc, "height", 16, 1088))?
        .arg(number(alloc, "pictures", 0, 300))
}

fn buffer<'a>(alloc: Global, command: Command<'a>) -> Result<Command<'a>, AllocError>
    ensures { IfOk result (λ made. app_of made ≡ with_buffer (app_of command.entry)) }
{
    command
        .arg(number(alloc, "bitrate", 64, 360_000_000))?
        .arg(bounded(alloc, "cpb", 16, 4_000_000_000))?
        .arg(bounded(alloc, "delay", 0, 4_294_967_295))
}

fn coding<'a>(alloc: Global, command: Command<'a>) -> Result<Command<'a>, AllocError>
    ensures { IfOk result (λ made. app_of made ≡ with_coding (app_of command.entry)) }
{
    command
        .arg(usual(alloc, "qp", 0, 51, "26"))?
        .arg(usual(alloc, "refs", 1, 4, "2"))?
        .arg(usual(alloc, "bframes", 0, 4, "2"))?
        .arg(usual(alloc, "idr", 1, 600, "250"))
}

fn work<'a>(alloc: Global, command: Command<'a>) -> Result<Command<'a>, AllocError>
    ensures { IfOk result (λ made. app_of made ≡ with_work (app_of command.entry)) }
{
    command
        .arg(usual(alloc, "range", 1, 32, "16"))?
        .arg(usual(alloc, "slices", 1, 255, "1"))?
        .arg(usual(alloc, "workers", 1, 64, "1"))?
        .arg(usual(alloc, "level", 0, 255, "0"))
}

// All options that encodings have.
fn encoding<'a>(
    alloc: Global,
    command: Command<'a>,
    names: &'a [&'a str],
) -> Result<Command<'a>, AllocError>
    ensures { IfOk result (λ made. app_of made ≡ with_settings names.entry (app_of command.entry)) }
{
    let buffered = buffer(alloc, command)?;
    let coded = coding(alloc, buffered)?;
    let worked = work(alloc, coded)?;
    worked.arg(choice(alloc, "t8x8", names, "on"))
}

fn encode_by<'a>(
    alloc: Global,
    words: &'a [&'a str],
    names: &'a [&'a str],
) -> Result<ArgMatches<'a>, Error>
    ensures { ReadsAs (encode_app names.entry) (map (λ w. w.now) words.entry.now) result }
{
    let named = Command::new(alloc, "encode").arg(text(alloc, "in"))?;
    let placed = outputs(alloc, named)?;
    let command = encoding(alloc, placed, names)?;
    command.try_get_matches_from(words)
}

fn trial_by<'a>(
    alloc: Global,
    words: &'a [&'a str],
    names: &'a [&'a str],
) -> Result<ArgMatches<'a>, Error>
    ensures { ReadsAs (trial_app names.entry) (map (λ w. w.now) words.entry.now) result }
{
    let made = film(alloc, Command::new(alloc, "trial"))?;
    let placed = outputs(alloc, made)?;
    let command = encoding(alloc, placed, names)?;
    command.try_get_matches_from(words)
}

/// What clap makes of the words of `store`, of which the first is the command's own.
pub fn store_matches<'a>(alloc: Global, words: &'a [&'a str]) -> Result<ArgMatches<'a>, Error>
    ensures { ReadsAs store_app (map (λ w. w.now) words.entry.now) result }
{
    let command = Command::new(alloc, "store")
        .arg(text(alloc, "in"))?
        .arg(text(alloc, "out"))?;
    command.try_get_matches_from(words)
}

/// What clap makes of the words of `encode`, of which the first is the command's own.
pub fn encode_matches<'a>(alloc: Global, words: &'a [&'a str]) -> Result<ArgMatches<'a>, Error>
    ensures { ReadsAs (encode_app on_off) (map (λ w. w.now) words.entry.now) result }
{
    encode_by(alloc, words, switch())
}

/// What clap makes of the words of `trial`, of which the first is the command's own.
pub fn trial_matches<'a>(alloc: Global, words: &'a [&'a str]) -> Result<ArgMatches<'a>, Error>
    ensures { ReadsAs (trial_app on_off) (map (λ w. w.now) words.entry.now) result }
{
    trial_by(alloc, words, switch())
}
