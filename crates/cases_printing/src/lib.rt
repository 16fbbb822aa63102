// What every section of `cases` shares: the report of the cases, the numbers of an answer, weekdays, and bytes in hexadecimal.
#![tactic(auto)]

ghost use Rattle.std.specs.Prelude.{◌≡◌};
ghost use Rattle.rules.specs.Said.{said, said_refusal, said_numbers};
ghost use Rattle.cases_printing.specs.Weekdays.{ReadsWeekday};

use rules::{Answer, Refusal, ReplyNumbers};
use std::{fmt, io};

// Where the cases are printed, how many ran, and how many of them did not come out as expected.
#[derive(Drop)]
pub struct Report<'a, P> {
    pub rt: &'a P,
    cases: u32,
    unexpected: u32,
}

impl<'a, P: Print> Report<'a, P> {
    pub fn new(rt: &'a P) -> Self {
        Report {
            rt,
            cases: 0,
            unexpected: 0,
        }
    }

    // Ends the line of a case and counts it.
    pub fn end(&mut self, as_expected: bool) -> io::Result<()> {
        self.cases = self.cases.wrapping_add(1);
        if as_expected {
            return println!(self.rt; "");
        }
        self.unexpected = self.unexpected.wrapping_add(1);
        println!(self.rt; " NOT AS EXPECTED")
    }

    // Ends the line of a case with what was found and what was expected.
    pub fn compare<T: fmt::Display + PartialEq>(
        &mut self,
        found: &T,
        expected: &T,
    ) -> io::Result<()> {
        print!(self.rt; "{found}, expected {expected}")?;
        self.end(found == expected)
    }

    // The last line, with the counts.
    pub fn finish(&self) -> io::Result<()> {
        println!(self.rt; "{} cases, {} not as expected", self.cases, self.unexpected)
    }
}

// The numbers of an answer: its own and both details.
#[derive(Clone, Copy, PartialEq, Eq)]
pub struct Reply(pub ReplyNumbers);

impl From<Answer> for Reply {
    ghost from_gives = { λ answer reply. said_numbers reply.0 ≡ said answer };

    fn from(answer: Answer) -> Reply {
        Reply(answers::numbers(answer))
    }
}

impl From<Refusal> for Reply {
    ghost from_gives = { λ refusal reply. said_numbers reply.0 ≡ said_refusal refusal };

    fn from(refusal: Refusal) -> Reply {
        Reply(answers::numbers(Err(refusal)))
    }
}

impl fmt::Display for Reply {
    fn fmt<W: fmt::Write>(&self, f: &mut fmt::Formatter<W>) -> fmt::Result {
        let reply = self.0;
        write!(f, "{} {} {}", reply.number, reply.first, reply.second)
    }
}

// A weekday. Its number is the calendar's, and what the calls take.
#[derive(Clone, Copy, PartialEq, Debug)]
pub enum Weekday {
    Monday = 1,
    Tuesday = 2,
    Wednesday = 3,
    Thursday = 4,
    Friday = 5,
    Saturday = 6,
    Sunday = 7,
}

// The number is that of no weekday.
#[derive(Clone, Copy, PartialEq, Debug)]
pub struct NoWeekday(pub u8);

impl TryFrom<u8> for Weekday {
    type Error = NoWeekday;

    ghost try_from_gives = { ReadsWeekday };

    #[tactic(auto, unfolding(rules::specs::Basics::between))]
    fn try_from(number: u8) -> Result<Weekday, NoWeekday> {
        match number {
            1 => Ok(Weekday::Monday),
            2 => Ok(Weekday::Tuesday),
            3 => Ok(Weekday::Wednesday),
            4 => Ok(Weekday::Thursday),
            5 => Ok(Weekday::Friday),
            6 => Ok(Weekday::Saturday),
            7 => Ok(Weekday::Sunday),
            _ => Err(NoWeekday(number)),
        }
    }
}

// Each byte in hexadecimal, with a space before it.
#[derive(Clone, Copy)]
pub struct Hexadecimal<'a>(pub &'a [u8]);

impl fmt::Display for Hexadecimal<'_> {
    fn fmt<W: fmt::Write>(&self, f: &mut fmt::Formatter<W>) -> fmt::Result {
        for byte in self.0 {
            write!(f, " {byte:02X}")?;
        }
        Ok(())
    }
}
