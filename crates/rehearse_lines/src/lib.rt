// A line is matched, word by word, against the pattern of its kind, which its first word chooses.
#![tactic(auto)]

mod kinds;
mod marks;
mod request;
mod unfit;

ghost use Rattle.std.specs.Prelude.{◌≡◌, ◌<◌, false, Err, IfOk, IfSome, length};

pub use kinds::{CallKind, CapacityKind, Kind, ReadKind};
pub use marks::Mark;
use rehearse_text::{LONGEST, past_all, past_word};
pub use request::Request;
pub use unfit::{Unfit, Wanted};

// A comment or an empty line.
fn is_passed_on(line: &[u8]) -> bool {
    matches!(past_all(line, b' '), [] | [b'#', ..])
}

// By its first word.
fn matched(line: &[u8]) -> Result<Request, Unfit<'_>> {
    let found = marks::PATTERNS.iter().find_map(|(kind, pattern)| {
        let (first, marks) = pattern.split_once(' ')?;
        let rest = past_word(line, first.as_bytes())?;
        Some(request::matched(*kind, marks, rest))
    });
    found.unwrap_or(Err(Unfit::Expects(Wanted::FirstWord)))
}

// What a line asks for; nothing where it is passed on. `opened` says whether a day was opened before it.
pub fn read(line: &[u8], opened: bool) -> Result<Option<Request>, Unfit<'_>>
    ensures too_long { LONGEST < length line.now → result ≡ Err Unfit.TooLong }
    ensures unopened { opened ≡ false → IfOk result (λ asked. IfSome asked (λ request. request.kind ≡ Kind.Open)) }
{
    if LONGEST < line.len() {
        return Err(Unfit::TooLong);
    }
    if is_passed_on(line) {
        return Ok(None);
    }
    let request = matched(line)?;
    if opened || matches!(request.kind, Kind::Open) {
        Ok(Some(request))
    } else {
        Err(Unfit::Unopened)
    }
}
