//! Writes the lines of the report.
#![tactic(auto)]

ghost use Rattle.std.specs.Prelude.{◌≡◌, ◌≤◌, ◌+◌, ◌++◌, decimal};
ghost use Rattle.arrayvec.specs.ArrayString.{array_string_len};
ghost use Rattle.spec_report.specs.Lines.{head_line, kind_letter, coding_word, picture_line, totals_line};

use arrayvec::ArrayString;
use itoa::Buffer;
pub use spec_report::{ReportHead, ReportPicture, ReportTotals, SliceKind};

/// The room of a line: no line has more bytes.
pub const LINE_ROOM: usize = 192;

// Appends a number in decimal digits.
fn push_number(line: &mut ArrayString<LINE_ROOM>, number: u64)
    requires room { array_string_len line.old + 20 ≤ 192 }
    ensures bytes { line.new.bytes ≡ line.old.bytes ++ decimal number }
    ensures room { array_string_len line.new ≤ array_string_len line.old + 20 }
{
    let mut buffer = Buffer::new();
    line.push_str(buffer.format(number));
}

/// The line at the start, with its line feed:
/// `rate <rate> cpb <cpb> delay <delay> level <level> slices <slices>`.
#[tactic(auto, unfolding(spec_report::specs::Lines::head_line))]
pub fn head_line(head: &ReportHead) -> ArrayString<LINE_ROOM>
    ensures { result.bytes ≡ head_line head.now }
{
    let mut line = ArrayString::<LINE_ROOM>::new();
    line.push_str("rate ");
    push_number(&mut line, head.rate as u64);
    line.push_str(" cpb ");
    push_number(&mut line, head.cpb as u64);
    line.push_str(" delay ");
    push_number(&mut line, head.delay as u64);
    line.push_str(" level ");
    push_number(&mut line, head.level as u64);
    line.push_str(" slices ");
    push_number(&mut line, head.slices as u64);
    line.push_str("\n");
    line
}

fn letter_of(kind: SliceKind) -> &'static str
    ensures { result.now ≡ kind_letter kind }
{
    match kind {
        SliceKind::I => "I",
        SliceKind::P => "P",
        SliceKind::B => "B",
    }
}

fn word_of(coarsest: bool) -> &'static str
    ensures { result.now ≡ coding_word coarsest }
{
    if coarsest { "coarsest" } else { "plain" }
}

/// The line of a picture, with its line feed: `<coded> <display> <I, P or B> qp <qp>
/// <plain or coarsest> bits <bits> filler <filler> have <have>`.
#[tactic(auto, unfolding(spec_report::specs::Lines::picture_line))]
pub fn picture_line(picture: &ReportPicture) -> ArrayString<LINE_ROOM>
    ensures { result.bytes ≡ picture_line picture.now }
{
    let mut line = ArrayString::<LINE_ROOM>::new();
    push_number(&mut line, picture.coded as u64);
    line.push_str(" ");
    push_number(&mut line, picture.display as u64);
    line.push_str(" ");
    line.push_str(letter_of(picture.kind));
    line.push_str(" qp ");
    push_number(&mut line, picture.qp as u64);
    line.push_str(" ");
    line.push_str(word_of(picture.coarsest));
    line.push_str(" bits ");
    push_number(&mut line, picture.bits);
    line.push_str(" filler ");
    push_number(&mut line, picture.filler);
    line.push_str(" have ");
    push_number(&mut line, picture.have);
    line.push_str("\n");
    line
}

/// The line at the end, with its line feed:
/// `pictures <pictures> bits <bits> comparisons <comparisons>`.
#[tactic(auto, unfolding(spec_report::specs::Lines::totals_line))]
pub fn totals_line(totals: &ReportTotals) -> ArrayString<LINE_ROOM>
    ensures { result.bytes ≡ totals_line totals.now }
{
    let mut line = ArrayString::<LINE_ROOM>::new();
    line.push_str("pictures ");
    push_number(&mut line, totals.pictures as u64);
    line.push_str(" bits ");
    push_number(&mut line, totals.bits);
    line.push_str(" comparisons ");
    push_number(&mut line, totals.comparisons);
    line.push_str("\n");
    line
}
