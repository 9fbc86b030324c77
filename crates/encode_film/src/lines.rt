// What stands in the outputs beside the pictures: the head of the reconstruction, and the report's first and last line.
ghost use Rattle.std.specs.Prelude.{◌≡◌, [], ◌++◌};
ghost use Rattle.spec_coding.specs.Report.{totals_in};
ghost use Rattle.spec_report.specs.Lines.{totals_line};
ghost use Rattle.spec_session.specs.Outputs.{written_to};
ghost use Rattle.enc_session.specs.Sessions.{settings_of, state_of};
ghost use Rattle.encode_film.specs.Calls.{Settles, TextWritten};
ghost use Rattle.encode_film.specs.Lines.{line_alone};

use crate::EncodeEnd;
use enc_edge::{Out, Studio, write_full};
use enc_session::Session;
use report_lines::{ReportHead, ReportTotals, head_line, totals_line};
use spec_film::FilmHead;
use spec_words::command::Settings;
use y4m_film::put_head;

fn put_line<S: Studio>(studio: &mut S, line: &[u8]) -> Result<(), EncodeEnd>
    ensures { TextWritten (line_alone line.now) (S.seen studio.old) (S.seen studio.new) result }
{
    match write_full(studio, Out::Report, line) {
        Ok(()) => Ok(()),
        Err(_) => Err(EncodeEnd::Write(Out::Report)),
    }
}

// Writes the head of the reconstruction, then the report's first line.
pub(crate) fn put_heads<S: Studio>(
    studio: &mut S,
    head: &FilmHead,
    settings: &Settings,
    session: &Session,
) -> Result<(), EncodeEnd>
    requires settled { Settles settings.now head.now (settings_of session.now) }
    ensures { TextWritten (written_to (settings_of session.now) []) (S.seen studio.old) (S.seen studio.new) result }
{
    match put_head(studio, Out::Recon, head) {
        Ok(()) => {}
        Err(_) => return Err(EncodeEnd::Write(Out::Recon)),
    }
    let line = head_line(&ReportHead {
        rate: settings.rate,
        cpb: settings.cpb,
        delay: settings.delay,
        level: session.level(),
        slices: settings.slices,
    });
    put_line(studio, line.as_bytes())
}

// Writes the report's last line.
pub(crate) fn put_totals<S: Studio>(studio: &mut S, session: &Session) -> Result<(), EncodeEnd>
    ensures { TextWritten (line_alone (totals_line (totals_in (state_of session.now)))) (S.seen studio.old) (S.seen studio.new) result }
{
    let (pictures, bits, comparisons) = session.totals();
    let line = totals_line(&ReportTotals {
        pictures,
        bits,
        comparisons,
    });
    put_line(studio, line.as_bytes())
}
