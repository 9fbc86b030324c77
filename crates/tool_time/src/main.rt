//! Kernels of the encoder, run many times so that their speed can be measured. The first word says which kernel is run,
//! and further words how and how often. A line of standard output has a sum over what was made, so that other programs
//! can be seen to make the same. By the word `all` each kernel runs a little.
#![tactic(auto)]

mod bins;
mod blocks;
mod filter;
mod motion;
mod nine;
mod random;
mod search;

use std::process::ExitCode;
use tool_input::{Fault, borrowed, ended, number_words, own_words};

const WORDS: &str =
    "bins TIMES, blocks 4x4|8x8 TIMES, motion copy|b|h|j TIMES, filter TIMES [off], search WIDTH HEIGHT RANGE TIMES, nine WIDTH HEIGHT RANGE TIMES 0|1, or all";

fn number(word: &str) -> Result<u32, Fault> {
    word.parse::<u32>().map_err(|_| Fault::Words(WORDS))
}

fn run_all(rt: &HostRuntime) -> Result<(), Fault> {
    bins::code(rt, 3)?;
    blocks::through_4x4(rt, 2)?;
    blocks::through_8x8(rt, 2)?;
    motion::predict(rt, "copy", 1)?;
    motion::predict(rt, "b", 1)?;
    motion::predict(rt, "h", 1)?;
    motion::predict(rt, "j", 1)?;
    filter::filter(rt, 1, true)?;
    search::search_made(rt)?;
    nine::search_made(rt)
}

fn run_kernel(rt: &HostRuntime, words: &[&str]) -> Result<(), Fault> {
    match words {
        ["all"] => run_all(rt),
        ["bins", times] => bins::code(rt, number(times)?),
        ["blocks", "4x4", times] => blocks::through_4x4(rt, number(times)?),
        ["blocks", "8x8", times] => blocks::through_8x8(rt, number(times)?),
        ["motion", position, times] => motion::predict(rt, position, number(times)?),
        ["filter", times] => filter::filter(rt, number(times)?, true),
        ["filter", times, "off"] => filter::filter(rt, number(times)?, false),
        ["search", settings @ ..] => search::search(
            rt,
            number_words(rt.alloc(), settings, WORDS)?.as_slice(),
        ),
        ["nine", settings @ ..] => nine::search(
            rt,
            number_words(rt.alloc(), settings, WORDS)?.as_slice(),
        ),
        _ => Err(Fault::Words(WORDS)),
    }
}

fn run(rt: &HostRuntime) -> Result<(), Fault> {
    let owned = own_words(rt)?;
    let words = borrowed(rt.alloc(), owned.as_slice())?;
    run_kernel(rt, words.as_slice())
}

fn main(rt: HostRuntime) -> ExitCode {
    ended(&rt, run(&rt))
}
