// The head of a film is read.
ghost use Rattle.std.specs.Prelude.{◌≡◌, ◌≢◌, ◌≤◌, ℕ, List, length, drop, Ok, Err, IfOk, IfErr, IsErrOf};
ghost use Rattle.spec_film.specs.Films.{read_head, AllowedHead};
ghost use Rattle.enc_edge.specs.Reads.{Took, TookSome};
ghost use Rattle.y4m_film.specs.LineReads.{LineUnread};
ghost use Rattle.y4m_film.specs.Saying.{fault_of_long};

use crate::lines::{LineEnd, MOST_LINE, read_line};
use crate::text::{begins_film, head_of_line};
use enc_edge::Studio;
use spec_film::{FilmHead, HeadFault};

/// Reads the head of a film with its line feed, and no byte past it. The head is `YUV4MPEG2` and pieces parted by
/// spaces, each a letter and a value; where a letter is repeated the last one counts: W and H are the sizes, F the
/// rate (25:1 where it isn't said), C and I have to tell 4:2:0 of 8 bits and progressive pictures where they are
/// there, and all other letters may have any value. It takes no memory.
///
/// Each fault but `ReadFault` comes exactly where it is the first that holds of the bytes; what was taken is then
/// some of them. `ReadFault`: a read failed behind some bytes of the line.
pub fn read_head<S: Studio>(studio: &mut S) -> Result<FilmHead, HeadFault>
    ensures ok { IfOk result (λ h. (n : ℕ) × Took n (λ left. (n ≤ length left) × (read_head left ≡ Ok (h, drop n left))) (S.seen studio.old) (S.seen studio.new)) }
    ensures allowed { IfOk result AllowedHead }
    ensures read { IsErrOf result HeadFault.ReadFault → LineUnread (S.seen studio.old) (S.seen studio.new) }
    ensures fault { IfErr result (λ f. f ≢ HeadFault.ReadFault → TookSome (λ left. read_head left ≡ Err f) (S.seen studio.old) (S.seen studio.new)) }
{
    let mut line = [0u8; MOST_LINE];
    match read_line(studio, &mut line) {
        Ok(LineEnd::Whole(length)) => head_of_line(&line[..length]),
        Ok(LineEnd::Cut(_)) => Err(HeadFault::NotY4m),
        Ok(LineEnd::Long) => Err(fault_of_long(&line)),
        Err(_) => Err(HeadFault::ReadFault),
    }
}

// The fault of a line that is too long.
fn fault_of_long(line: &[u8]) -> HeadFault
    requires { 1024 ≤ length line.now }
    ensures { result ≡ fault_of_long line.now }
{
    if begins_film(line) {
        HeadFault::LongLine
    } else {
        HeadFault::NotY4m
    }
}
