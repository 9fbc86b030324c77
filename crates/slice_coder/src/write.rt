// A macroblock's bins, and the flag between macroblocks.
ghost use Rattle.std.specs.Prelude.{◌≡◌, ◌<◌, false, length};
ghost use Rattle.spec_macroblock.specs.Records.{IsRecord};
ghost use Rattle.bin_writer.specs.Coding.{seen, IsReady, Codes, CodesPlain};
ghost use Rattle.slice_coder.specs.Strings.{near_at, string_at, flag_before, Follows};

use crate::near::around_of;
use crate::place::Place;
use bin_writer::code_no_end;
use cabac_coder::Coder;
use cabac_contexts::Contexts;
use enc_tables::MbRecord;
use mb_syntax::code_mb;
use spec_headers::SliceHead;

/// A macroblock behind those before it in its slice.
pub fn write_behind(
    coder: &mut Coder,
    contexts: &mut Contexts,
    before: &[MbRecord],
    mb: &MbRecord,
    head: &SliceHead,
    place: &Place,
)
    requires ready { IsReady (seen coder.old contexts.old) }
    requires across { 0 < place.now.across }
    requires first { head.now.first_mb < 65536 }
    requires few { length before.now < 65536 }
    requires follows { Follows head.now before.now mb.now }
    requires record_ { IsRecord (near_at place.now head.now before.now) mb.now }
    ensures { Codes (seen coder.old contexts.old) (string_at place.now head.now before.now mb.now) (seen coder.new contexts.new) }
{
    let around = around_of(before, head, place);
    code_mb(coder, contexts, mb, &around);
}

/// end_of_slice_flag of the macroblock before macroblock `n`, which doesn't end the slice.
pub fn write_no_end(coder: &mut Coder, n: usize)
    requires { coder.old.ended ≡ false }
    ensures { CodesPlain coder.old (flag_before n) coder.new }
{
    if n > 0 {
        code_no_end(coder);
    }
}
