// The end of a slice's data, and the buffer behind it.
ghost use Rattle.std.specs.Prelude.{◌≡◌, List, true, false, IsErr, [], ◌∷◌, ◌++◌};
ghost use Rattle.enc_tables.specs.declared.records.CtxState.{CtxState};
ghost use Rattle.bit_strings.specs.BitText.{BitText};
ghost use Rattle.spec_cabac.specs.Code.{arith_code};
ghost use Rattle.spec_syntax.specs.declared.Bin.{Bin};
ghost use Rattle.spec_syntax.specs.Syntax.{at};
ghost use Rattle.spec_syntax.specs.Elements.{end_of_slice};
ghost use Rattle.spec_slice_data.specs.Coding.{asked};
ghost use Rattle.bin_writer.specs.Coding.{coding, Codes};
ghost use Rattle.slice_coder.specs.Left.{Leaves, started_at};

use bit_strings::{BitBuf, Full};
use cabac_coder::Coder;

fn emptied(mut buf: BitBuf) -> (Result<(), Full>, BitBuf)
    ensures answer { IsErr result.0 }
    ensures empty { result.1 ≡ record buf { text = [] } }
{
    buf.clear();
    (Err(Full), buf)
}

/// Ends the code, and gives back the buffer: with the bits of the code, whatever bins led here, and zeros to the
/// byte, or without any bits where these don't fit.
pub fn close(mut coder: Coder) -> (Result<(), Full>, BitBuf)
    requires { coder.ended ≡ false }
    ensures { (buf : BitText) (states : List CtxState) (last : List CtxState) (bins : List Bin) → Codes (coding (started_at buf) states) bins (coding coder last) → Leaves result.0 buf.room buf.made (buf.text ++ arith_code (asked states (bins ++ at end_of_slice true ∷ []))) result.1 }
{
    if coder.terminate(true).is_err() {
        return emptied(coder.give_back());
    }
    let mut buf = coder.finish();
    if buf.align().is_err() {
        return emptied(buf);
    }
    (Ok(()), buf)
}
