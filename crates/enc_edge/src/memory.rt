// A studio in memory, whose calls fail by a list.
ghost use Rattle.std.specs.Prelude.{◌≡◌, ◌<◌, ◌≤◌, ◌+◌, ◌-◌, ◌^◌, ◌++◌, [], length, take, min, is_err, MatchResult, IfSome, IfOk, vec_len, All};
ghost use Rattle.std.specs.Vec.{vec_capacity};
ghost use Rattle.enc_edge.specs.Calls.{shut_standing};
ghost use Rattle.enc_edge.specs.Stands.{stand_of};

use crate::places::{output_at, place_at};
use crate::{Failed, Out, Place, Studio};
use arrayvec::ArrayString;
use std::alloc::{AllocError as OutOfMemory, Global};

/// How a place stands in a studio in memory.
#[derive(Clone, Copy)]
pub enum Standing {
    /// It has not been opened.
    Fresh,
    /// It stands open under this name.
    Opened(ArrayString<1024>),
    /// It was closed, and was open under this name.
    Shut(ArrayString<1024>),
}

/// A studio in memory, which tells all its bytes and standings.
///
/// Its calls are counted from 0, up to 2^64 − 1. A call fails exactly where its number is among
/// those that are to fail, or it opens with a name of over 1024 bytes, or it writes to an output that
/// holds `room` bytes. Another read or write moves as many bytes as `piece`, its buffer, and the bytes
/// or the room left allow.
#[derive(Drop)]
pub struct MemStudio {
    input: Vec<u8>,
    taken: usize,
    // In the order of Out.
    outputs: [Vec<u8>; 3],
    room: usize,
    // By place: the input, then the outputs in order.
    names: [Standing; 4],
    piece: usize,
    failing: Vec<u64>,
    calls: u64,
    // By place: the faults of opening it, then those of later calls.
    counters: [u64; 8],
    ghost taken_within: { taken ≤ vec_len input },
    ghost three_outputs: { length outputs ≡ 3 },
    ghost outputs_fit: { All (λ held. vec_len held ≤ room) outputs },
    ghost outputs_made: { All (λ held. room ≤ vec_capacity held) outputs },
    ghost moves: { 1 ≤ piece },
    ghost four_names: { length names ≡ 4 },
}

// Appends as many of the bytes as the piece and the room allow.
fn append(held: &mut Vec<u8>, room: usize, piece: usize, bytes: &[u8]) -> usize
    requires fits { vec_len held.old ≤ room }
    requires made { room ≤ vec_capacity held.old }
    ensures count { result ≡ min (min (length bytes.now) piece) (room - vec_len held.old) }
    ensures items { held.new.items ≡ held.old.items ++ take result bytes.now }
    ensures fits { vec_len held.new ≤ room }
    ensures made { room ≤ vec_capacity held.new }
{
    let n = bytes.len().min(piece).min(room - held.len());
    // The room was made at the start, so this takes no memory and can't fail.
    let _ = held.extend_from_slice(&bytes[..n]);
    n
}

fn shut_from(standing: Standing) -> Standing
    ensures { stand_of result ≡ shut_standing (stand_of standing) }
{
    match standing {
        Standing::Opened(name) => Standing::Shut(name),
        Standing::Fresh => Standing::Fresh,
        Standing::Shut(name) => Standing::Shut(name),
    }
}

impl MemStudio {
    ghost use Rattle.enc_edge.specs.Memory.{Starts, written};

    /// A studio over these bytes: all places are fresh, all counts are 0. Each output has room for
    /// `room` bytes, at most 2^30, and a call moves at most `piece` bytes, at least 1. `failing` has
    /// the numbers of the calls that are to fail. `OutOfMemory`: the room could not be had; the
    /// other calls take no memory.
    pub fn new(
        alloc: Global,
        input: Vec<u8>,
        room: usize,
        piece: usize,
        failing: Vec<u64>,
    ) -> Result<MemStudio, OutOfMemory>
        requires room { room ≤ 2 ^ 30 }
        requires piece { 1 ≤ piece }
        ensures { IfOk result (λ m. Starts input.items room piece failing.items m) }
    {
        Ok(MemStudio {
            input,
            taken: 0,
            outputs: [
                Vec::with_capacity(alloc, room)?,
                Vec::with_capacity(alloc, room)?,
                Vec::with_capacity(alloc, room)?,
            ],
            room,
            names: [Standing::Fresh; 4],
            piece,
            failing,
            calls: 0,
            counters: [0; 8],
        })
    }

    /// The bytes written to an output.
    pub fn written(&self, out: Out) -> &[u8]
        ensures { result.now ≡ written out self.now }
    {
        &self.outputs[output_at(out)]
    }
}

impl MemStudio {
    ghost use Rattle.enc_edge.specs.Calls.{OpeningFailed, LaterFailed, opened};
    ghost use Rattle.enc_edge.specs.Memory.{memory_seen, is_to_fail, opening_fails, Counted};

    // Counts the call, and says whether it is to fail.
    fn count_call(&mut self) -> bool
        ensures answer { result ≡ is_to_fail self.old }
        ensures seen { memory_seen self.new ≡ memory_seen self.old }
        ensures counted { Counted self.old self.new }
    {
        let number = self.calls;
        self.calls = number.saturating_add(1);
        self.failing.iter().any(|k| *k == number)
    }

    fn fail_opening(&mut self, place: Place)
        ensures failed { OpeningFailed place (memory_seen self.old) (memory_seen self.new) }
        ensures calls { self.new.calls ≡ self.old.calls }
        ensures failing { self.new.failing ≡ self.old.failing }
        ensures room { self.new.room ≡ self.old.room }
        ensures piece { self.new.piece ≡ self.old.piece }
    {
        let i = 2 * place_at(place);
        self.counters[i] = self.counters[i].saturating_add(1);
    }

    fn fail_later(&mut self, place: Place)
        ensures failed { LaterFailed place (memory_seen self.old) (memory_seen self.new) }
        ensures calls { self.new.calls ≡ self.old.calls }
        ensures failing { self.new.failing ≡ self.old.failing }
        ensures room { self.new.room ≡ self.old.room }
        ensures piece { self.new.piece ≡ self.old.piece }
    {
        let i = 2 * place_at(place) + 1;
        self.counters[i] = self.counters[i].saturating_add(1);
    }

    fn open(&mut self, place: Place, name: &str) -> Result<(), Failed>
        ensures exact { is_err result ≡ opening_fails name.now self.old }
        ensures counted { Counted self.old self.new }
        ensures change { MatchResult result
            (λ _. memory_seen self.new ≡ opened place name.now (memory_seen self.old))
            (λ _. OpeningFailed place (memory_seen self.old) (memory_seen self.new)) }
    {
        let fails = self.count_call();
        match ArrayString::from(name) {
            Ok(text) if !fails => {
                self.names[place_at(place)] = Standing::Opened(text);
                Ok(())
            }
            _ => {
                self.fail_opening(place);
                Err(Failed)
            }
        }
    }
}

impl Studio for MemStudio {
    ghost use Rattle.std.specs.Prelude.{◌≡◌, ◌<◌, ◌≤◌, ◌-◌, [], length, take, min, is_err, MatchResult, IfSome, IfOk};
    ghost use Rattle.enc_edge.specs.Seen.{spot_at};
    ghost use Rattle.enc_edge.specs.Calls.{OpeningFailed, LaterFailed, opened, shut, wrote, took};
    ghost use Rattle.enc_edge.specs.Memory.{memory_seen, left, written, is_to_fail, opening_fails, write_fails, Counted};

    ghost seen = { memory_seen };

    fn open_in(&mut self, name: &str) -> Result<(), Failed>
        ensures exact { is_err result ≡ opening_fails name.now self.old }
        ensures counted { Counted self.old self.new }
        ensures change { MatchResult result
            (λ _. memory_seen self.new ≡ opened Place.Input name.now (memory_seen self.old))
            (λ _. OpeningFailed Place.Input (memory_seen self.old) (memory_seen self.new)) }
    {
        self.open(Place::Input, name)
    }

    fn open_out(&mut self, out: Out, name: &str) -> Result<(), Failed>
        ensures exact { is_err result ≡ opening_fails name.now self.old }
        ensures counted { Counted self.old self.new }
        ensures change { MatchResult result
            (λ _. memory_seen self.new ≡ opened (Place.Output out) name.now (memory_seen self.old))
            (λ _. OpeningFailed (Place.Output out) (memory_seen self.old) (memory_seen self.new)) }
    {
        self.open(Place::Output(out), name)
    }

    fn read(&mut self, buf: &mut [u8]) -> Result<usize, Failed>
        requires { 0 < length buf.old }
        ensures exact { is_err result ≡ is_to_fail self.old }
        ensures moved { IfOk result (λ n. n ≡ min (min (length buf.old) self.old.piece) (length (left self.old))) }
        ensures counted { Counted self.old self.new }
        ensures count { IfOk result (λ n. n ≤ length buf.new) }
        ensures bytes { IfOk result (λ n. IfSome (spot_at Place.Input (memory_seen self.old)).bytes (λ left.
            (n ≤ length left) × (take n buf.new ≡ take n left) × (n ≡ 0 → left ≡ []))) }
        ensures change { MatchResult result
            (λ n. memory_seen self.new ≡ took Place.Input n (memory_seen self.old))
            (λ _. LaterFailed Place.Input (memory_seen self.old) (memory_seen self.new)) }
    {
        if self.count_call() {
            self.fail_later(Place::Input);
            return Err(Failed);
        }
        let from = self.taken;
        let n = buf.len().min(self.piece).min(self.input.len() - from);
        buf[..n].copy_from_slice(&self.input[from..from + n]);
        self.taken += n;
        Ok(n)
    }

    fn write(&mut self, out: Out, bytes: &[u8]) -> Result<usize, Failed>
        requires { 0 < length bytes.now }
        ensures exact { is_err result ≡ write_fails out self.old }
        ensures moved { IfOk result (λ n. n ≡ min (min (length bytes.now) self.old.piece) (self.old.room - length (written out self.old))) }
        ensures counted { Counted self.old self.new }
        ensures count { IfOk result (λ n. (0 < n) × (n ≤ length bytes.now)) }
        ensures change { MatchResult result
            (λ n. memory_seen self.new ≡ wrote (Place.Output out) (take n bytes.now) (memory_seen self.old))
            (λ _. LaterFailed (Place.Output out) (memory_seen self.old) (memory_seen self.new)) }
    {
        let fails = self.count_call();
        if fails || self.written(out).len() >= self.room {
            self.fail_later(Place::Output(out));
            return Err(Failed);
        }
        let room = self.room;
        let piece = self.piece;
        let held = &mut self.outputs[output_at(out)];
        Ok(append(held, room, piece, bytes))
    }

    fn close_out(&mut self, out: Out) -> Result<(), Failed>
        ensures exact { is_err result ≡ is_to_fail self.old }
        ensures counted { Counted self.old self.new }
        ensures change { MatchResult result
            (λ _. memory_seen self.new ≡ shut (Place.Output out) (memory_seen self.old))
            (λ _. LaterFailed (Place.Output out) (memory_seen self.old) (memory_seen self.new)) }
    {
        let place = Place::Output(out);
        if self.count_call() {
            self.fail_later(place);
            return Err(Failed);
        }
        let i = place_at(place);
        self.names[i] = shut_from(self.names[i]);
        Ok(())
    }
}
