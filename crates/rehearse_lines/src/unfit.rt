// Why a line has no answer.
use crate::marks::Mark;
use std::fmt;

#[derive(Clone, Copy)]
pub enum Unfit<'a> {
    TooLong,
    // A number is too large for its field: its digits, without zeros before them.
    TooLarge(&'a [u8]),
    // Something else stands where this is wanted.
    Expects(Wanted),
    // It fits, and no day was opened before it.
    Unopened,
}

#[derive(Clone, Copy)]
pub enum Wanted {
    FirstWord,
    Mark(Mark),
    // One of the numbers expected.
    Number,
    LineEnd,
}

impl fmt::Display for Wanted {
    ghost use Rattle.std.specs.Prelude.{Some};
    ghost use Rattle.rehearse_lines.specs.Reasons.{wanted_text};

    ghost output = { λ wanted. Some (wanted_text wanted) };

    fn fmt<W: fmt::Write>(&self, f: &mut fmt::Formatter<W>) -> fmt::Result {
        match self {
            Wanted::FirstWord => f.write_str(
                "open, direction, profile, party, offer, bid, nominate, match, left, right or confirmed",
            ),
            Wanted::Mark(mark) => write!(f, "{mark}"),
            Wanted::Number => f.write_str("a number"),
            Wanted::LineEnd => f.write_str("the end of the line"),
        }
    }
}

// How many digits are shown of a number that is too large.
const SHOWN: usize = 20;

impl fmt::Display for Unfit<'_> {
    ghost use Rattle.std.specs.Prelude.{Some};
    ghost use Rattle.rehearse_lines.specs.Reasons.{unfit_text};

    ghost output = { λ unfit. Some (unfit_text unfit) };

    fn fmt<W: fmt::Write>(&self, f: &mut fmt::Formatter<W>) -> fmt::Result {
        match self {
            Unfit::TooLong => f.write_str("too long: a line has at most 200 bytes"),
            Unfit::TooLarge(digits) => {
                f.write_str("too large: ")?;
                let shown = digits.get(..SHOWN).unwrap_or(digits);
                for digit in shown {
                    f.write_char(char::from(*digit))?;
                }
                if SHOWN < digits.len() {
                    f.write_str("..")?;
                }
                Ok(())
            }
            Unfit::Expects(wanted) => write!(f, "not understood: expected {wanted}"),
            Unfit::Unopened => f.write_str("needs an open before it"),
        }
    }
}
