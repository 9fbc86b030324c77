//! Parts of the encoder, each by itself, for comparisons with other encoders. The first word says which part is asked,
//! and further words are its settings; standard input has lines of text, most of them decimal numbers with a blank
//! between two of them, and each answer is a line of standard output. Without words the input has questions to several
//! parts, one behind another: each begins with a line `=`, the name of the part and its settings.
#![tactic(auto)]

ghost use Rattle.std.specs.Prelude.{◌≤◌, length};

mod bins;
mod code;
mod filter;
mod heads;
mod motion;
mod pictures;
mod plans;
mod row_plans;
mod search;
mod slices;

use std::process::ExitCode;
use tool_input::{Fault, borrowed, ended, number_words, own_words, read_lines};

const WORDS: &str =
    "bins, slices, motion, filter, heads, plans WIDTH HEIGHT PICTURES T8X8 QP FIRST_ROW.., row_plans WIDTH HEIGHT RANGE T8X8 B REFERENCES FIRST_ROW.., or search WIDTH HEIGHT RANGE PAIRS";

const PARTS: &str = "parts, each of which begins with a line `= NAME SETTINGS..`";

// Asks a part of the encoder by these words.
fn ask(rt: &HostRuntime, words: &[&str], lines: &[String]) -> Result<(), Fault> {
    let alloc = rt.alloc();
    let [name, settings @ ..] = words else {
        return Err(Fault::Words(WORDS));
    };
    let settings = number_words(alloc, settings, WORDS)?;
    match (*name, settings.as_slice()) {
        ("bins", []) => bins::code_lines(rt, lines),
        ("slices", []) => slices::code_slices(rt, lines),
        ("motion", []) => motion::derive_lines(rt, lines),
        ("filter", []) => filter::filter_picture(rt, lines),
        ("heads", []) => heads::answer_lines(rt, lines),
        ("plans", settings) => plans::plan_pictures(rt, settings, lines),
        ("row_plans", settings) => row_plans::plan_rows(rt, settings, lines),
        ("search", settings) => search::search_pictures(rt, settings, lines),
        _ => Err(Fault::Words(WORDS)),
    }
}

// How many lines stand before the next one that names a part.
fn part_len(lines: &[String]) -> usize
    ensures { result ≤ length lines.now }
{
    for (place, line) in lines.iter().enumerate() {
        if line.as_str().starts_with("= ") {
            return place;
        }
    }
    lines.len()
}

// Asks several parts of the encoder, one after another.
fn ask_all(rt: &HostRuntime, lines: &[String]) -> Result<(), Fault> {
    let mut left = lines;
    while let [head, rest @ ..] = left {
        let words: Vec<&str> = head.as_str().split(' ').collect(rt.alloc())?;
        let ["=", words @ ..] = words.as_slice() else {
            return Err(Fault::Input(PARTS));
        };
        let (part, behind) = rest.split_at(part_len(rest));
        ask(rt, words, part)?;
        left = behind;
    }
    Ok(())
}

fn run(rt: &HostRuntime) -> Result<(), Fault> {
    let owned = own_words(rt)?;
    let words = borrowed(rt.alloc(), owned.as_slice())?;
    let lines = read_lines(rt)?;
    if words.is_empty() {
        ask_all(rt, lines.as_slice())
    } else {
        ask(rt, words.as_slice(), lines.as_slice())
    }
}

fn main(rt: HostRuntime) -> ExitCode {
    ended(&rt, run(&rt))
}
