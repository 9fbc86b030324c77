// A line is read byte by byte.
ghost use Rattle.std.specs.Prelude.{◌≡◌, ◌≤◌, ◌<◌, ◌+◌, IfOk, IfErr};
ghost use Rattle.y4m_film.specs.LineReads.{LineIs, LineUnread};

use enc_edge::{Failed, Studio, read_full};

/// The most bytes that a line has, its line feed among them.
pub(crate) const MOST_LINE: usize = 1024;

/// How the reading of a line ended.
#[derive(Clone, Copy)]
pub(crate) enum LineEnd {
    /// With its line feed, the last of this many bytes.
    Whole(usize),
    /// With the input, behind this many bytes.
    Cut(usize),
    /// Without a line feed among as many bytes as a line may have.
    Long,
}

/// Reads a line with its line feed into `line`, and no byte past it. `Failed`: a read failed behind some bytes of the
/// line.
pub(crate) fn read_line<S: Studio>(
    studio: &mut S,
    line: &mut [u8; MOST_LINE],
) -> Result<LineEnd, Failed>
    ensures line { IfOk result (λ end. LineIs line.new (S.seen studio.old) (S.seen studio.new) end) }
    ensures err { IfErr result (λ _. LineUnread (S.seen studio.old) (S.seen studio.new)) }
{
    for n in 0..MOST_LINE {
        let mut byte = [0u8; 1];
        let read = read_full(studio, &mut byte)?;
        if read == 0 {
            return Ok(LineEnd::Cut(n));
        }
        line[n] = byte[0];
        if byte[0] == b'\n' {
            return Ok(LineEnd::Whole(n + 1));
        }
    }
    Ok(LineEnd::Long)
}
