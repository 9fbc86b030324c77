// A studio over files, which counts the faults of each.
ghost use Rattle.std.specs.Prelude.{◌≡◌, ◌<◌, ◌≤◌, [], ◌∷◌, length, IfOk};
ghost use Rattle.enc_edge.specs.Calls.{OpeningFailed, LaterFailed};
ghost use Rattle.enc_edge.specs.Counts.{counts_seen};

use crate::places::place_at;
use crate::{Failed, Out, Place, Studio};
use std::fs;
use std::fs::OpenFile;
use std::io::{ErrorKind, Read, Write};
use std::rt::Files;

// Reads once, and again where a signal came between. A place that isn't open can't be read.
fn read_some<F: Read>(file: &mut Option<F>, buf: &mut [u8]) -> Result<usize, Failed>
    ensures { IfOk result (λ n. n ≤ length buf.new) }
{
    let file = file.as_mut().ok_or(Failed)?;
    for _ in 0..u64::MAX {
        match file.read(buf) {
            Ok(n) => return Ok(n),
            Err(fault) if fault.kind() == ErrorKind::Interrupted => {}
            Err(_) => return Err(Failed),
        }
    }
    Err(Failed)
}

// Writes once, and again where a signal came between. A file that takes no byte has failed.
fn write_some<F: Write>(file: &mut Option<F>, bytes: &[u8]) -> Result<usize, Failed>
    ensures { IfOk result (λ n. (0 < n) × (n ≤ length bytes.now)) }
{
    let file = file.as_mut().ok_or(Failed)?;
    for _ in 0..u64::MAX {
        match file.write(bytes) {
            Ok(0) => return Err(Failed),
            Ok(n) => return Ok(n),
            Err(fault) if fault.kind() == ErrorKind::Interrupted => {}
            Err(_) => return Err(Failed),
        }
    }
    Err(Failed)
}

// Hands what was written to the device, where a late fault of a write shows. A pipe or a terminal
// has nothing to hand on, and says so by one of two errors.
fn settle<F: Write + OpenFile>(file: &mut F) -> Result<(), Failed> {
    file.flush().map_err(|_| Failed)?;
    match file.sync_data() {
        Ok(()) => Ok(()),
        Err(fault) => match fault.kind() {
            ErrorKind::InvalidInput | ErrorKind::Unsupported => Ok(()),
            _ => Err(Failed),
        },
    }
}

// Closes the file, where one stands open. It stays open where its bytes could not be handed on.
fn close<F: Write + OpenFile + Drop>(file: &mut Option<F>) -> Result<(), Failed> {
    if let Some(open) = file {
        settle(open)?;
    }
    *file = None;
    Ok(())
}

// Counts that opening the place failed.
fn fail_opening(counters: &mut [u64; 8], place: Place)
    ensures { OpeningFailed place (counts_seen counters.old) (counts_seen counters.new) }
{
    let i = 2 * place_at(place);
    counters[i] = counters[i].saturating_add(1);
}

// Counts that a later call on the place failed.
fn fail_later(counters: &mut [u64; 8], place: Place)
    ensures { LaterFailed place (counts_seen counters.old) (counts_seen counters.new) }
{
    let i = 2 * place_at(place) + 1;
    counters[i] = counters[i].saturating_add(1);
}

/// A studio over files. It tells its counts of faults, which start at 0, and neither bytes nor
/// standings: what a file holds is known to the system alone.
#[derive(Drop)]
pub struct RealStudio<'a, R: Files> {
    rt: &'a R,
    input: Option<R::File>,
    stream: Option<R::File>,
    recon: Option<R::File>,
    report: Option<R::File>,
    // By place: the faults of opening it, then those of later calls.
    counters: [u64; 8],
}

impl<'a, R: Files> RealStudio<'a, R> {
    /// A studio with no file open, over this runtime's files.
    pub fn new(rt: &'a R) -> Self
        ensures { counts_seen result.counters ≡ counts_seen (0 ∷ 0 ∷ 0 ∷ 0 ∷ 0 ∷ 0 ∷ 0 ∷ 0 ∷ []) }
    {
        RealStudio {
            rt,
            input: None,
            stream: None,
            recon: None,
            report: None,
            counters: [0; 8],
        }
    }
}

impl<'a, R: Files> Studio for RealStudio<'a, R> {
    ghost use Rattle.enc_edge.specs.Counts.{counts_seen};

    ghost seen = { λ s. counts_seen s.counters };

    fn open_in(&mut self, name: &str) -> Result<(), Failed> {
        match fs::open(self.rt, name) {
            Ok(file) => {
                self.input = Some(file);
                Ok(())
            }
            Err(_) => {
                fail_opening(&mut self.counters, Place::Input);
                Err(Failed)
            }
        }
    }

    fn open_out(&mut self, out: Out, name: &str) -> Result<(), Failed> {
        match fs::create(self.rt, name) {
            Ok(file) => {
                match out {
                    Out::Stream => self.stream = Some(file),
                    Out::Recon => self.recon = Some(file),
                    Out::Report => self.report = Some(file),
                }
                Ok(())
            }
            Err(_) => {
                fail_opening(&mut self.counters, Place::Output(out));
                Err(Failed)
            }
        }
    }

    fn read(&mut self, buf: &mut [u8]) -> Result<usize, Failed> {
        let done = read_some(&mut self.input, buf);
        if done.is_err() {
            fail_later(&mut self.counters, Place::Input);
        }
        done
    }

    fn write(&mut self, out: Out, bytes: &[u8]) -> Result<usize, Failed> {
        let done = match out {
            Out::Stream => write_some(&mut self.stream, bytes),
            Out::Recon => write_some(&mut self.recon, bytes),
            Out::Report => write_some(&mut self.report, bytes),
        };
        if done.is_err() {
            fail_later(&mut self.counters, Place::Output(out));
        }
        done
    }

    fn close_out(&mut self, out: Out) -> Result<(), Failed> {
        let done = match out {
            Out::Stream => close(&mut self.stream),
            Out::Recon => close(&mut self.recon),
            Out::Report => close(&mut self.report),
        };
        if done.is_err() {
            fail_later(&mut self.counters, Place::Output(out));
        }
        done
    }
}
