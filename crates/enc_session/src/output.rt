// A coded picture is written.
ghost use Rattle.spec_report.specs.Lines.{picture_line};
ghost use Rattle.enc_session.specs.Left.{UnitLeft};

use enc_edge::{Out, Studio, write_full};
use report_lines::{ReportPicture, picture_line};

/// Writes the access unit of a picture to the stream, in one call, and its line to the report. An error names the
/// output to which a write failed.
pub(crate) fn write_picture<S: Studio>(
    studio: &mut S,
    unit: &[u8],
    picture: &ReportPicture,
) -> Result<(), Out>
    ensures { UnitLeft unit.now (picture_line picture.now) (S.seen studio.old) (S.seen studio.new) result }
{
    match write_full(studio, Out::Stream, unit) {
        Ok(()) => {}
        Err(_) => return Err(Out::Stream),
    }
    let line = picture_line(picture);
    match write_full(studio, Out::Report, line.as_bytes()) {
        Ok(()) => Ok(()),
        Err(_) => Err(Out::Report),
    }
}
