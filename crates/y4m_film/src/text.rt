// The text of a head line.
ghost use Rattle.std.specs.Prelude.{◌≡◌, ◌≤◌, ◌<◌, ◌+◌, ◌*◌, ◌^◌, ℕ, Bool, List, length, take, drop, IfSome, IsTrue};
ghost use Rattle.std.specs.List.{list_all, position_or_len};
ghost use Rattle.std.specs.Char.{is_ascii_digit};
ghost use Rattle.spec_basics.specs.Decimals.{number_of, value_of_digits};
ghost use Rattle.spec_film.specs.Films.{is_space, is_colon, ends_word, begins_film, rate_from, rate_of, is_420, is_progressive, head_from, head_of_sizes, pieces_of, head_of_pieces};
ghost use Rattle.y4m_film.specs.Saying.{said_unless, said_width, said_height, said_rate, said_after, said_piece, head_of_line};

use spec_film::{FilmHead, HeadFault};

/// What the pieces of a head said so far: the last of each kind.
#[derive(Clone, Copy)]
pub(crate) struct Said {
    width: Option<u32>,
    height: Option<u32>,
    num: u32,
    den: u32,
}

// The value of at most nine decimal digits.
fn decimal_value(digits: &[u8]) -> u64
    requires nine { length digits.now ≤ 9 }
    requires digits { IsTrue (list_all is_ascii_digit digits.now) }
    ensures value { result ≡ value_of_digits digits.now }
    ensures small { result < 1000000000 }
{
    let mut value = 0;
    for digit in digits {
        value = 10 * value + (*digit - b'0') as u64;
    }
    value
}

fn are_digits(bytes: &[u8]) -> bool
    ensures { result ≡ list_all is_ascii_digit bytes.now }
{
    bytes.iter().all(|byte| byte.is_ascii_digit())
}

// The number that 1 to 9 decimal digits write.
#[tactic(auto, unfolding(spec_basics::specs::Decimals::number_of))]
fn number(digits: &[u8]) -> Option<u32>
    ensures { result ≡ number_of 9 digits.now }
{
    if digits.is_empty() {
        return None;
    }
    if digits.len() > 9 {
        return None;
    }
    if !are_digits(digits) {
        return None;
    }
    Some(decimal_value(digits) as u32)
}

// How many bytes stand before the first space, or in all where there is none.
fn before_space(text: &[u8]) -> usize
    ensures value { result ≡ position_or_len is_space text.now }
    ensures within { result ≤ length text.now }
{
    for i in 0..text.len() {
        if text[i] == b' ' {
            return i;
        }
    }
    text.len()
}

// How many bytes stand before the first colon, or in all where there is none.
fn before_colon(text: &[u8]) -> usize
    ensures value { result ≡ position_or_len is_colon text.now }
    ensures within { result ≤ length text.now }
{
    for i in 0..text.len() {
        if text[i] == b':' {
            return i;
        }
    }
    text.len()
}

// The rate of these numbers: at most 172 pictures in a second.
fn rate_from(num: Option<u32>, den: Option<u32>) -> Option<(u32, u32)>
    ensures { result ≡ rate_from num den }
{
    let num = num?;
    let den = den?;
    if num < 1 || num > 10_000_000 || den < 1 || den > 10_000_000 {
        return None;
    }
    if num > 172 * den {
        return None;
    }
    Some((num, den))
}

// The rate that `<num>:<den>` writes.
#[tactic(auto, unfolding(spec_film::specs::Films::rate_of))]
fn rate(text: &[u8]) -> Option<(u32, u32)>
    ensures { result ≡ rate_of text.now }
{
    if text == b"0:0".as_slice() {
        return Some((25, 1));
    }
    let end = before_colon(text);
    let tail = &text[end..];
    if !tail.starts_with(b":") {
        return None;
    }
    rate_from(number(&text[..end]), number(&tail[1..]))
}

// 4:2:0 of 8 bits.
#[tactic(auto, unfolding(spec_film::specs::Films::is_420))]
fn is_420(text: &[u8]) -> bool
    ensures { result ≡ is_420 text.now }
{
    text == b"420".as_slice()
        || text == b"420jpeg".as_slice()
        || text == b"420mpeg2".as_slice()
        || text == b"420paldv".as_slice()
}

#[tactic(auto, unfolding(spec_film::specs::Films::is_progressive))]
fn is_progressive(text: &[u8]) -> bool
    ensures { result ≡ is_progressive text.now }
{
    text == b"p".as_slice() || text == b"?".as_slice()
}

impl Said {
    // Before the first piece. Where nothing is said of the rate, it is 25 pictures in a second.
    fn nothing() -> Said
        ensures width { result.width ≡ None }
        ensures height { result.height ≡ None }
        ensures rate { (result.num ≡ 25) × (result.den ≡ 1) }
    {
        Said {
            width: None,
            height: None,
            num: 25,
            den: 1,
        }
    }

    fn with_width(self, width: Option<u32>) -> Result<Said, HeadFault>
        ensures { result ≡ said_width self width }
    {
        match width {
            Some(width) => Ok(Said {
                width: Some(width),
                ..self
            }),
            None => Err(HeadFault::BadNumber),
        }
    }

    fn with_height(self, height: Option<u32>) -> Result<Said, HeadFault>
        ensures { result ≡ said_height self height }
    {
        match height {
            Some(height) => Ok(Said {
                height: Some(height),
                ..self
            }),
            None => Err(HeadFault::BadNumber),
        }
    }

    fn with_rate(self, rate: Option<(u32, u32)>) -> Result<Said, HeadFault>
        ensures { result ≡ said_rate self rate }
    {
        match rate {
            Some((num, den)) => Ok(Said { num, den, ..self }),
            None => Err(HeadFault::BadNumber),
        }
    }

    fn unless(self, good: bool, fault: HeadFault) -> Result<Said, HeadFault>
        ensures { result ≡ said_unless self good fault }
    {
        if good { Ok(self) } else { Err(fault) }
    }

    // What is said once a letter was read with its value.
    fn after(self, letter: u8, value: &[u8]) -> Result<Said, HeadFault>
        ensures { result ≡ said_after self letter value.now }
    {
        if letter == b'W' {
            self.with_width(number(value))
        } else if letter == b'H' {
            self.with_height(number(value))
        } else if letter == b'F' {
            self.with_rate(rate(value))
        } else if letter == b'C' {
            self.unless(is_420(value), HeadFault::Chroma)
        } else if letter == b'I' {
            self.unless(is_progressive(value), HeadFault::Interlace)
        } else {
            Ok(self)
        }
    }

    // The same of a piece, which may be empty where two spaces stand side by side.
    fn after_piece(self, piece: &[u8]) -> Result<Said, HeadFault>
        ensures { result ≡ said_piece self piece.now }
    {
        if piece.is_empty() {
            return Ok(self);
        }
        self.after(piece[0], &piece[1..])
    }

    // The head, once all pieces were read.
    fn head(self) -> Result<FilmHead, HeadFault>
        ensures { result ≡ head_from self.width self.height (self.num, self.den) }
    {
        let Some(width) = self.width else {
            return Err(HeadFault::Missing);
        };
        let Some(height) = self.height else {
            return Err(HeadFault::Missing);
        };
        head_of_sizes(width, height, self.num, self.den)
    }
}

fn head_of_sizes(width: u32, height: u32, num: u32, den: u32) -> Result<FilmHead, HeadFault>
    ensures { result ≡ head_of_sizes width height (num, den) }
{
    if width < 16 || width > 4096 || height < 16 || height > 2304 {
        return Err(HeadFault::Size);
    }
    if width % 2 != 0 || height % 2 != 0 {
        return Err(HeadFault::OddSize);
    }
    Ok(FilmHead {
        width,
        height,
        num,
        den,
    })
}

// The head that the pieces of this text write. They are parted by spaces.
fn head_of_text(text: &[u8]) -> Result<FilmHead, HeadFault>
    ensures { result ≡ head_of_pieces (pieces_of text.now) }
{
    let mut said = Said::nothing();
    let mut from = 0;
    while from < text.len() {
        let end = from + before_space(&text[from..]);
        said = said.after_piece(&text[from..end])?;
        from = end + 1;
    }
    said.head()
}

// A space, or the end of a line.
pub(crate) fn ends_word(byte: u8) -> bool
    ensures { result ≡ ends_word byte }
{
    byte == b' ' || byte == b'\n'
}

/// The bytes begin with the first word of a film, and it ends there.
pub(crate) fn begins_film(bytes: &[u8]) -> bool
    ensures { result ≡ begins_film bytes.now }
{
    bytes.starts_with(b"YUV4MPEG2") && bytes.len() > 9 && ends_word(bytes[9])
}

/// The head that a line writes, with its line feed.
pub(crate) fn head_of_line(line: &[u8]) -> Result<FilmHead, HeadFault>
    ensures { result ≡ head_of_line line.now }
{
    if !begins_film(line) {
        return Err(HeadFault::NotY4m);
    }
    let end = line.len() - 1;
    head_of_text(&line[9..end])
}
