// A studio whose input is a film in memory.
ghost use Rattle.std.specs.Prelude.{◌≡◌};

use crate::{Failed, Out, Studio};

/// A studio whose input is a film in memory, and whose outputs are those of another studio, with
/// their faults. The other's input stays as it is.
///
/// The film's bytes are told, and how its place stands isn't. Opening and reading it never fail.
#[derive(Drop)]
pub struct WithFilm<'a, S> {
    film: Vec<u8>,
    taken: usize,
    studio: &'a mut S,
}

impl<'a, S: Studio> WithFilm<'a, S> {
    ghost use Rattle.enc_edge.specs.Filmed.{filmed, behind};
    ghost use Rattle.enc_edge.specs.Films.{lender_of, film_seen};

    /// The studio whose input is this film. It takes no memory.
    pub fn new(film: Vec<u8>, studio: &'a mut S) -> WithFilm<'a, S>
        ensures same_reference { lender_of result ≡ studio.entry.ghost_name }
        ensures seen { film_seen S.seen result ≡ filmed film.items studio.entry.ghost_name (S.seen studio.old) }
    {
        WithFilm {
            film,
            taken: 0,
            studio,
        }
    }

    /// Gives the other studio back as it now stands. Its input is as it was.
    pub fn into_inner(self) -> &'a mut S
        ensures same_reference { result.ghost_name ≡ lender_of self.entry }
        ensures seen { S.seen result.now ≡ behind (film_seen S.seen self.entry) }
    {
        let WithFilm {
            film: _,
            taken: _,
            studio,
        } = self;
        studio
    }
}

impl<S: Studio> Studio for WithFilm<'_, S> {
    ghost use Rattle.enc_edge.specs.Films.{film_seen};

    ghost seen = { film_seen S.seen };

    fn open_in(&mut self, _name: &str) -> Result<(), Failed> {
        Ok(())
    }

    fn open_out(&mut self, out: Out, name: &str) -> Result<(), Failed> {
        self.studio.open_out(out, name)
    }

    fn read(&mut self, buf: &mut [u8]) -> Result<usize, Failed> {
        let from = self.taken.min(self.film.len());
        let n = buf.len().min(self.film.len() - from);
        buf[..n].copy_from_slice(&self.film[from..from + n]);
        self.taken = from + n;
        Ok(n)
    }

    fn write(&mut self, out: Out, bytes: &[u8]) -> Result<usize, Failed> {
        self.studio.write(out, bytes)
    }

    fn close_out(&mut self, out: Out) -> Result<(), Failed> {
        self.studio.close_out(out)
    }
}
