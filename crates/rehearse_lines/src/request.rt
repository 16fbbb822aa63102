// What a line asks for, read mark by mark.
ghost use Rattle.std.specs.Prelude.{◌<◌, IfSome, length};

use crate::kinds::{CallKind, Kind};
use crate::marks::Mark;
use crate::unfit::{Unfit, Wanted};
use rehearse_numbers::{Width, fits, leading_number};
use rehearse_text::{Numbers, ends_word, is_over, past_all, past_sign, past_word};

// Its numbers in their order; the map of a profile's directions is its only number. No numbers are expected where there are none in `expected`, since an equals
// sign without a number is refused: an `Option` would be no plainer.
// A kind beside its numbers in a row: the patterns say what each number is, and a case for each kind would say it twice.
#[derive(Clone, Copy)]
pub struct Request {
    pub kind: Kind,
    pub given: Numbers,
    pub expected: Numbers,
}

// ---- what stands next

fn next_number(line: &[u8]) -> Option<(u64, &[u8])>
    ensures { IfSome result (λ next. length next.1.now < length line.now) }
{
    let (number, rest) = leading_number(past_all(line, b' '))?;
    ends_word(rest).then_some((number, rest))
}

// The digits of the number that stands next, without zeros before them.
fn next_digits(line: &[u8]) -> &[u8] {
    let text = past_all(past_all(line, b' '), b'0');
    match leading_number(text) {
        Some((_, rest)) => &text[..text.len() - rest.len()],
        None => &[],
    }
}

fn ends_code(byte: u8) -> bool {
    byte == b' ' || byte == b','
}

// Sixteen bytes and no more, after a space.
fn next_code(line: &[u8]) -> Option<(&[u8; 16], &[u8])> {
    let text = past_all(line.strip_prefix(b" ")?, b' ');
    let (code, rest) = text.split_first_chunk::<16>()?;
    if code.iter().any(|byte| ends_code(*byte)) {
        return None;
    }
    matches!(rest, [] | [b' ' | b',', ..]).then_some((code, rest))
}

// An equals sign is a word.
fn past_equals(line: &[u8]) -> Option<&[u8]> {
    let rest = past_all(line.strip_prefix(b" ")?, b' ').strip_prefix(b"=")?;
    matches!(rest, [] | [b' ', ..]).then_some(rest)
}

// The call ends with the line, or before the numbers expected.
fn at_end_of_call(line: &[u8]) -> Option<&[u8]> {
    (is_over(line) || past_equals(line).is_some()).then_some(line)
}

// ---- marks

impl Request {
    fn take_number<'a>(
        &mut self,
        width: Width,
        line: &'a [u8],
    ) -> Result<Option<&'a [u8]>, Unfit<'a>> {
        let Some((number, rest)) = next_number(line) else {
            return Ok(None);
        };
        if !fits(number, width) {
            return Err(Unfit::TooLarge(next_digits(line)));
        }
        self.given.add(number);
        Ok(Some(rest))
    }

    // As a map, with a bit for each.
    fn take_directions<'a>(&mut self, line: &'a [u8]) -> Result<Option<&'a [u8]>, Unfit<'a>> {
        let mut map: u64 = 0;
        let mut rest = line;
        while let Some((direction, after)) = next_number(rest) {
            if !fits(direction, Width::MapPlace) {
                return Err(Unfit::TooLarge(next_digits(rest)));
            }
            map |= 1u64 << direction;
            rest = after;
        }
        self.given = Numbers::from([map]);
        Ok(at_end_of_call(rest))
    }

    // Only the line of a party has a code.
    fn take_code<'a>(&mut self, line: &'a [u8]) -> Option<&'a [u8]> {
        let (code, rest) = next_code(line)?;
        self.kind = Kind::Call(CallKind::Party(*code));
        Some(rest)
    }

    fn take_direction_or_profile<'a>(&mut self, line: &'a [u8]) -> Option<&'a [u8]> {
        if let Some(rest) = past_word(line, b"direction") {
            return Some(rest);
        }
        let rest = past_word(line, b"profile")?;
        self.kind = self.kind.of_profile();
        Some(rest)
    }

    // Past what a mark stands for, which is kept; nothing where something else stands there.
    fn take<'a>(&mut self, mark: Mark, line: &'a [u8]) -> Result<Option<&'a [u8]>, Unfit<'a>> {
        Ok(match mark {
            Mark::Word(word) => past_word(line, word.as_bytes()),
            Mark::Comma => past_sign(line, b','),
            Mark::Hyphen => past_sign(line, b'-'),
            Mark::Colon => past_sign(line, b':').or(at_end_of_call(line)),
            Mark::Number(width) => self.take_number(width, line)?,
            Mark::Mw => self
                .take_number(Width::TwoBytes, line)?
                .or(at_end_of_call(line)),
            Mark::Directions => self.take_directions(line)?,
            Mark::Code => self.take_code(line),
            Mark::DirectionOrProfile => self.take_direction_or_profile(line),
        })
    }
}

// ---- the whole line

// The numbers expected, if there are any, and the line's end.
fn numbers_expected(line: &[u8]) -> Result<Numbers, Unfit<'_>> {
    if is_over(line) {
        return Ok(Numbers::default());
    }
    let mut rest = past_equals(line).ok_or(Unfit::Expects(Wanted::LineEnd))?;
    let mut expected = Numbers::default();
    while let Some((number, after)) = next_number(rest) {
        expected.add(number);
        rest = after;
    }
    if expected.is_empty() || !is_over(rest) {
        return Err(Unfit::Expects(Wanted::Number));
    }
    Ok(expected)
}

// A line of this kind, past its first word.
pub fn matched<'a>(kind: Kind, marks: &'static str, line: &'a [u8]) -> Result<Request, Unfit<'a>> {
    let mut request = Request {
        kind,
        given: Numbers::default(),
        expected: Numbers::default(),
    };
    let mut rest = line;
    for text in marks.split(' ') {
        let mark = Mark::from(text);
        rest = request
            .take(mark, rest)?
            .ok_or(Unfit::Expects(Wanted::Mark(mark)))?;
    }
    request.expected = numbers_expected(rest)?;
    Ok(request)
}
