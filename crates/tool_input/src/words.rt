// Words and lines.
use crate::faults::Fault;
use std::alloc::{AllocError, Global};
use std::env;
use std::io::{BufRead, BufReader};

/// The system's words, the program's own name among them.
pub fn own_words(rt: &HostRuntime) -> Result<Vec<String>, Fault> {
    Ok(env::args(rt)?.collect(rt.alloc())?)
}

/// The words without the program's own name.
pub fn borrowed<'a>(alloc: Global, owned: &'a [String]) -> Result<Vec<&'a str>, AllocError> {
    let mut words = Vec::new(alloc);
    for word in owned.iter().skip(1) {
        words.push(word.as_str())?;
    }
    Ok(words)
}

/// The numbers that words write; `wanted` says what they should be.
pub fn number_words(
    alloc: Global,
    words: &[&str],
    wanted: &'static str,
) -> Result<Vec<u32>, Fault> {
    let mut numbers = Vec::new(alloc);
    for word in words {
        let Ok(number) = word.parse::<u32>() else {
            return Err(Fault::Words(wanted));
        };
        if numbers.push(number).is_err() {
            return Err(Fault::OutOfMemory);
        }
    }
    Ok(numbers)
}

/// The lines of standard input.
pub fn read_lines(rt: &HostRuntime) -> Result<Vec<String>, Fault> {
    let alloc = rt.alloc();
    let mut lines = Vec::new(alloc);
    for line in BufReader::new(alloc, rt.reader())?.lines(alloc) {
        if lines.push(line?).is_err() {
            return Err(Fault::OutOfMemory);
        }
    }
    Ok(lines)
}
