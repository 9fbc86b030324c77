// Bytes wait until there are enough of them for one call of an output.
ghost use Rattle.std.specs.Prelude.{◌≡◌, ◌≤◌, ◌<◌, ◌+◌, length};

use enc_edge::{Failed, Out, Studio, write_full};

/// How many bytes are read at once, at most, and how many are written at once, at least, but for the last ones of a
/// picture.
pub(crate) const PIECE: usize = 65_536;

// Room for the longest row of samples behind a piece that isn't full yet.
const ROOM: usize = PIECE + 4096;

/// Bytes that wait to be written.
#[derive(Drop)]
pub(crate) struct Waiting {
    bytes: [u8; ROOM],
    count: usize,
    ghost long: { length bytes ≡ 69632 },
    ghost within: { count ≤ 69632 },
}

impl Waiting {
    ghost use Rattle.std.specs.Prelude.{[], ◌++◌, IfOk, IfErr};
    ghost use Rattle.enc_edge.specs.Calls.{wrote};
    ghost use Rattle.enc_edge.specs.declared.studio.Place.{Place};
    ghost use Rattle.y4m_film.specs.Waits.{waits, Gathered};
    ghost use Rattle.y4m_film.specs.Writes.{FrontWritten};

    /// Nothing waits.
    pub(crate) fn new() -> Self
        ensures bytes { waits result ≡ [] }
        ensures count { result.count ≡ 0 }
    {
        Waiting {
            bytes: [0; ROOM],
            count: 0,
        }
    }

    /// These bytes wait too, behind the others.
    pub(crate) fn add(&mut self, bytes: &[u8])
        requires { self.old.count + length bytes.now ≤ 69632 }
        ensures bytes { waits self.new ≡ waits self.old ++ bytes.now }
        ensures count { self.new.count ≡ self.old.count + length bytes.now }
    {
        let end = self.count + bytes.len();
        self.bytes[self.count..end].copy_from_slice(bytes);
        self.count = end;
    }

    /// Appends all that waits to an output. `Failed`: a write failed, and a front of these bytes was appended.
    pub(crate) fn put<S: Studio>(&mut self, studio: &mut S, out: Out) -> Result<(), Failed>
        ensures ok { IfOk result (λ _. S.seen studio.new ≡ wrote (Place.Output out) (waits self.old) (S.seen studio.old)) }
        ensures rest { IfOk result (λ _. (waits self.new ≡ []) × (self.new.count ≡ 0)) }
        ensures err { IfErr result (λ _. FrontWritten out (waits self.old) (S.seen studio.old) (S.seen studio.new)) }
    {
        match write_full(studio, out, &self.bytes[..self.count]) {
            Ok(()) => {
                self.count = 0;
                Ok(())
            }
            Err((_, failed)) => Err(failed),
        }
    }

    /// Lets these bytes wait too, and appends all that waits to an output where it is a piece. `Failed`: a write
    /// failed, and a front of what waited and of these bytes was appended.
    pub(crate) fn gather<S: Studio>(
        &mut self,
        studio: &mut S,
        out: Out,
        bytes: &[u8],
    ) -> Result<(), Failed>
        requires room { self.old.count < 65536 }
        requires row { length bytes.now ≤ 4096 }
        ensures ok { IfOk result (λ _. Gathered out (waits self.old) bytes.now (waits self.new) (S.seen studio.old) (S.seen studio.new)) }
        ensures room { IfOk result (λ _. self.new.count < 65536) }
        ensures err { IfErr result (λ _. FrontWritten out (waits self.old ++ bytes.now) (S.seen studio.old) (S.seen studio.new)) }
    {
        self.add(bytes);
        if self.count < PIECE {
            return Ok(());
        }
        self.put(studio, out)
    }
}
