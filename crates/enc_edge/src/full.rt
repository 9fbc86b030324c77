// Reads and writes that go on until all is done.
ghost use Rattle.std.specs.Prelude.{◌≡◌, ◌<◌, ◌≤◌, length, take, min, IfSome, IfOk, IfErr};
ghost use Rattle.enc_edge.specs.Seen.{spot_at};
ghost use Rattle.enc_edge.specs.Calls.{LaterFailed, wrote, took};
ghost use Rattle.enc_edge.specs.Reads.{ReadFailed, ReadFailedWithin};

use crate::{Failed, Out, Place, Studio};

/// Appends all of the bytes to an output. An error says how many of them were appended before a
/// write failed; nothing else changed but the count of later faults of that output.
pub fn write_full<S: Studio>(studio: &mut S, out: Out, bytes: &[u8]) -> Result<(), (u64, Failed)>
    ensures ok { IfOk result (λ _. S.seen studio.new ≡ wrote (Place.Output out) bytes.now (S.seen studio.old)) }
    ensures count { IfErr result (λ e. e.0 < length bytes.now) }
    ensures err { IfErr result (λ e. LaterFailed (Place.Output out) (wrote (Place.Output out) (take e.0 bytes.now) (S.seen studio.old)) (S.seen studio.new)) }
{
    let mut done = 0;
    while done < bytes.len() {
        let rest = &bytes[done..];
        match studio.write(out, rest) {
            Ok(n) => done += n,
            Err(failed) => return Err((done as u64, failed)),
        }
    }
    Ok(())
}

/// Reads until the buffer is full or the input ends, and says how many bytes were read: fewer than
/// the buffer holds only where the input ended. `Failed`: after some bytes, fewer than the buffer
/// holds, a read failed; the count of later faults of the input rose.
pub fn read_full<S: Studio>(studio: &mut S, buf: &mut [u8]) -> Result<usize, Failed>
    ensures count { IfOk result (λ n. n ≤ length buf.new) }
    ensures bytes { IfOk result (λ n. IfSome (spot_at Place.Input (S.seen studio.old)).bytes (λ left.
        (n ≡ min (length buf.new) (length left)) × (take n buf.new ≡ take n left))) }
    ensures end { IfOk result (λ n. n < length buf.new → IfSome (spot_at Place.Input (S.seen studio.old)).bytes (λ left. n ≡ length left)) }
    ensures ok { IfOk result (λ n. S.seen studio.new ≡ took Place.Input n (S.seen studio.old)) }
    ensures err { IfErr result (λ _. ReadFailed (S.seen studio.old) (S.seen studio.new)) }
    ensures within { IfErr result (λ _. ReadFailedWithin (length buf.new) (S.seen studio.old) (S.seen studio.new)) }
{
    let mut done = 0;
    while done < buf.len() {
        let n = studio.read(&mut buf[done..])?;
        if n == 0 {
            return Ok(done);
        }
        done += n;
    }
    Ok(done)
}
