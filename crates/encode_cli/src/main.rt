//! The encoder's program: `run` does what the words of a command line ask, and `main` gives it the system's words and
//! files.
#![tactic(auto)]

#[cfg(test)]
mod encode_tests;
mod films;
mod laws;
mod outcome;
mod run;
#[cfg(test)]
mod test_films;
#[cfg(test)]
mod tests;

use enc_edge::{OpenGate, RealStudio};
use outcome::{Outcome, fault_line, status};
use run::run;
use std::alloc::{AllocError, Global};
use std::env;
use std::io::{self, ErrorKind};
use std::process::ExitCode;

// Why the system didn't give the words.
enum Unread {
    OutOfMemory,
    Words,
}

impl From<AllocError> for Unread {
    fn from(_: AllocError) -> Unread {
        Unread::OutOfMemory
    }
}

impl From<io::Error> for Unread {
    fn from(error: io::Error) -> Unread {
        if error.kind() == ErrorKind::OutOfMemory {
            Unread::OutOfMemory
        } else {
            Unread::Words
        }
    }
}

// The program's words without its own name, borrowed from the owned ones.
fn borrowed<'a>(alloc: Global, owned: &'a [String]) -> Result<Vec<&'a str>, AllocError> {
    let mut words = Vec::new(alloc);
    for word in owned.iter().skip(1) {
        words.push(word.as_str())?;
    }
    Ok(words)
}

fn run_program(rt: &HostRuntime) -> Result<Outcome, Unread> {
    let owned: Vec<String> = env::args(rt)?.collect(rt.alloc())?;
    let words = borrowed(rt.alloc(), &owned)?;
    let mut studio = RealStudio::new(rt);
    Ok(run(rt, &words, &mut studio, &OpenGate))
}

fn main(rt: HostRuntime) -> ExitCode {
    match run_program(&rt) {
        Ok(outcome) => {
            let line = fault_line(&outcome);
            if !line.is_empty() {
                // Where the line can't be printed, the status still tells.
                let _ = rt.eprintln(line.as_str());
            }
            ExitCode::from(status(&outcome))
        }
        Err(Unread::OutOfMemory) => {
            // Where the line can't be printed, the status still tells.
            let _ = rt.eprintln("out of memory");
            ExitCode::from(9)
        }
        Err(Unread::Words) => {
            // Where the line can't be printed, the status still tells.
            let _ = rt.eprintln("words unread");
            ExitCode::from(11)
        }
    }
}
