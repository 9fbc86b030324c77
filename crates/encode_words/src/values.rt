// The values of options.
ghost use Rattle.std.specs.Prelude.{◌≡◌, ◌≤◌, ◌<◌, ◌^◌, IfErr, IfOk, IfSome};
ghost use Rattle.clap.specs.Words.{found_of, rows_of};
ghost use Rattle.spec_words.specs.Choices.{given_number as given_number_of, number_of as number_of_option, text_of as text_of_option};

use clap::ArgMatches;
use spec_words::command::WordsEnd;
use spec_words::name::Name;
use std::alloc::Global;

/// The text of an option; of one that its command needs it is the one that stands in the words.
#[tactic(auto, unfolding(spec_words::specs::Choices::text_of))]
pub fn text_of<'a>(matches: &ArgMatches<'a>, id: &str) -> &'a str
    ensures { result.now ≡ text_of_option id.now (rows_of (found_of matches.now)) }
{
    matches.get_str(id).unwrap_or("")
}

/// The text of an option as a name. The error is always `OutOfMemory`.
pub fn name_of(alloc: Global, matches: &ArgMatches<'_>, id: &str) -> Result<Name, WordsEnd>
    ensures name { IfOk result (λ name. name ≡ text_of_option id.now (rows_of (found_of matches.now))) }
    ensures memory { IfErr result (λ end. end ≡ WordsEnd.OutOfMemory) }
{
    match Name::new(alloc, text_of(matches, id)) {
        Ok(name) => Ok(name),
        Err(_) => Err(WordsEnd::OutOfMemory),
    }
}

/// The number of an option, where it is given; clap has seen to it that it is one from `low` to `high`.
#[tactic(auto, unfolding(spec_words::specs::Choices::given_number))]
pub fn given_number(matches: &ArgMatches<'_>, low: u64, high: u64, id: &str) -> Option<u64>
    requires { low ≤ high }
    ensures number { result ≡ given_number_of low high id.now (rows_of (found_of matches.now)) }
    ensures within { IfSome result (λ n. (low ≤ n) × (n ≤ high)) }
{
    match matches.get_one::<u64>(id) {
        Some(number) => Some(number.min(high).max(low)),
        None => None,
    }
}

/// The number of an option that has one always, by its command or by default.
#[tactic(auto, unfolding(spec_words::specs::Choices::number_of))]
pub fn number_of(matches: &ArgMatches<'_>, low: u64, high: u64, id: &str) -> u64
    requires { low ≤ high }
    ensures number { result ≡ number_of_option low high id.now (rows_of (found_of matches.now)) }
    ensures within { (low ≤ result) × (result ≤ high) }
{
    given_number(matches, low, high, id).unwrap_or(low)
}
