// Commands.
ghost use Rattle.std.specs.Prelude.{◌≡◌, map};
ghost use Rattle.clap.specs.Words.{found_of, kind_of, rows_of};
ghost use Rattle.spec_words.specs.Commands.{Answers, MeansOrMemory, encode_in, encode_of, meaning_of, store_in, store_of, trial_in, trial_of};
ghost use Rattle.encode_words.specs.Reads.{end_of_kind};

use crate::choices::{made_of, outputs_of, settings_of};
use crate::options::{encode_matches, store_matches, trial_matches};
use crate::values::name_of;
use clap::error::ErrorKind;
use clap::{ArgMatches, Error};
use spec_words::command::{Command, WordFault, WordsEnd};
use std::alloc::Global;

// Why there is no command where clap answers with an error.
fn end_of(error: &Error) -> WordsEnd
    ensures { result ≡ end_of_kind (kind_of error.now) }
{
    match error.kind() {
        ErrorKind::OutOfMemory => WordsEnd::OutOfMemory,
        kind => WordsEnd::Fault(WordFault::Refused(kind)),
    }
}

fn store_command(alloc: Global, matches: &ArgMatches<'_>) -> Result<Command, WordsEnd>
    ensures { MeansOrMemory (store_in (rows_of (found_of matches.now))) result }
{
    let input = name_of(alloc, matches, "in")?;
    let output = name_of(alloc, matches, "out")?;
    Ok(Command::Store { input, output })
}

fn encode_command(alloc: Global, matches: &ArgMatches<'_>) -> Result<Command, WordsEnd>
    ensures { MeansOrMemory (encode_in (rows_of (found_of matches.now))) result }
{
    let input = name_of(alloc, matches, "in")?;
    let outputs = outputs_of(alloc, matches)?;
    Ok(Command::Encode {
        input,
        outputs,
        settings: settings_of(matches),
    })
}

fn trial_command(alloc: Global, matches: &ArgMatches<'_>) -> Result<Command, WordsEnd>
    ensures { MeansOrMemory (trial_in (rows_of (found_of matches.now))) result }
{
    let outputs = outputs_of(alloc, matches)?;
    Ok(Command::Trial {
        made: made_of(matches),
        outputs,
        settings: settings_of(matches),
    })
}

fn store<'a>(alloc: Global, words: &'a [&'a str]) -> Result<Command, WordsEnd>
    ensures { Answers (store_of (map (λ w. w.now) words.entry.now)) result }
{
    match store_matches(alloc, words) {
        Ok(matches) => store_command(alloc, &matches),
        Err(error) => Err(end_of(&error)),
    }
}

fn encode<'a>(alloc: Global, words: &'a [&'a str]) -> Result<Command, WordsEnd>
    ensures { Answers (encode_of (map (λ w. w.now) words.entry.now)) result }
{
    match encode_matches(alloc, words) {
        Ok(matches) => encode_command(alloc, &matches),
        Err(error) => Err(end_of(&error)),
    }
}

fn trial<'a>(alloc: Global, words: &'a [&'a str]) -> Result<Command, WordsEnd>
    ensures { Answers (trial_of (map (λ w. w.now) words.entry.now)) result }
{
    match trial_matches(alloc, words) {
        Ok(matches) => trial_command(alloc, &matches),
        Err(error) => Err(end_of(&error)),
    }
}

/// The command that the words of a command line ask for, with all defaults filled in. The first word names it, and what
/// follows is read by `clap` as options, `--name value` or `--name=value`, in any order.
///
/// A fault is `NoCommand` where there is no word, `UnknownCommand` where the first one names no command, and `Refused`
/// with clap's kind of error where clap refuses the rest. `OutOfMemory` says that memory was wanting.
#[tactic(auto, unfolding(spec_words::specs::Commands::meaning_of))]
pub fn settings(alloc: Global, words: &[&str]) -> Result<Command, WordsEnd>
    ensures { Answers (meaning_of (map (λ w. w.now) words.now)) result }
{
    match words {
        [] => Err(WordsEnd::Fault(WordFault::NoCommand)),
        [first, ..] => {
            if *first == "store" {
                store(alloc, words)
            } else if *first == "encode" {
                encode(alloc, words)
            } else if *first == "trial" {
                trial(alloc, words)
            } else {
                Err(WordsEnd::Fault(WordFault::UnknownCommand))
            }
        }
    }
}
