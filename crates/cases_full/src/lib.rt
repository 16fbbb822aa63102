// Full tables: as many entries as there is room for are granted, the next is refused, and what needs no new entry is still granted.
#![tactic(auto)]

use answers::RightRead;
use cases_printing::{Reply, Report};
use cells::Book;
use rules::{Answer, Hour, ReplyNumbers, Session};
use std::{fmt, io};

// ---- calls

// A call with what it chooses; all else is the same in every case.
#[derive(Clone, Copy)]
enum Call {
    OpenDay,
    Direction { out: u8, into: u8, model: u8 },
    Profile,
    Party { code: [u8; 16], access: u8 },
    Offer { direction: u8 },
    Bid { party: u8, direction: u8 },
    Nomination { other: u8, right: u16, mw: u16 },
}

impl fmt::Display for Call {
    fn fmt<W: fmt::Write>(&self, f: &mut fmt::Formatter<W>) -> fmt::Result {
        match *self {
            Call::OpenDay => write!(f, "2015-06-01"),
            Call::Direction { out, into, model } => {
                write!(f, "direction {out} to {into}, model {model}")
            }
            Call::Profile => write!(f, "profile of map 3"),
            Call::Party { code, access } => {
                write!(f, "entry of party {}, access {access}", Code(code))
            }
            Call::Offer { direction } => {
                write!(f, "offer at 1000 for direction {direction}, hour 1: 9999")
            }
            Call::Bid { party, direction } => write!(
                f,
                "bid at 1100 by party {party} on direction {direction}, session 1: 1 0 0 0 0"
            ),
            Call::Nomination { other, right, mw } => write!(
                f,
                "nomination at 1100 by party 0 with party {other} on right {right}, side 0: {mw} 0 0 0 0"
            ),
        }
    }
}

#[derive(Clone, Copy)]
struct Code([u8; 16]);

impl fmt::Display for Code {
    fn fmt<W: fmt::Write>(&self, f: &mut fmt::Formatter<W>) -> fmt::Result {
        for byte in self.0 {
            write!(f, "{}", byte as char)?;
        }
        Ok(())
    }
}

fn answer_to(book: &mut Book, call: Call) -> Answer {
    match call {
        Call::OpenDay => daybook::open_day(book, 2015, 6, 1),
        Call::Direction { out, into, model } => daybook::add_direction(book, out, into, model),
        Call::Profile => daybook::add_profile(book, 3),
        Call::Party { code, access } => daybook::add_party(book, code, access),
        Call::Offer { direction } => daybook::offer_direction(book, 1000, direction, Hour(1), 9999),
        Call::Bid { party, direction } => {
            daybook::bid(book, 1100, party, direction, Session(1), [1, 0, 0, 0, 0])
        }
        Call::Nomination { other, right, mw } => {
            daybook::nominate(book, 1100, 0, other, right, 0, [mw, 0, 0, 0, 0])
        }
    }
}

// Calls that each need a new entry.
#[derive(Clone, Copy)]
enum Series {
    Directions,
    Profiles,
    Parties,
    Rights,
    Pairs,
}

// The call at a place, from 0, in a series. Of the first 49 directions seven lead from an operator to itself.
fn call_at(series: Series, place: u16) -> Call {
    let number = (place % 256) as u8;
    match series {
        Series::Directions => Call::Direction {
            out: number / 7,
            into: number % 7,
            model: 1,
        },
        Series::Profiles => Call::Profile,
        Series::Parties => Call::Party {
            code: cases_codes::code_of(number),
            access: 1,
        },
        Series::Rights => Call::Bid {
            party: 0,
            direction: 0,
        },
        Series::Pairs => Call::Nomination {
            other: 0,
            right: place,
            mw: 1,
        },
    }
}

fn count_granted(book: &mut Book, series: Series, times: u16) -> usize {
    (0..times)
        .map(|place| answer_to(book, call_at(series, place)))
        .filter(|answer| answer.is_ok())
        .count()
}

// ---- rights

// A right as it is read.
#[derive(Clone, Copy, PartialEq)]
struct Right(RightRead);

impl fmt::Display for Right {
    fn fmt<W: fmt::Write>(&self, f: &mut fmt::Formatter<W>) -> fmt::Result {
        let right = self.0;
        write!(
            f,
            "{} {} {}",
            right.holder, right.direction, right.session.0
        )?;
        for mw in right.mw {
            write!(f, " {mw}")?;
        }
        Ok(())
    }
}

// A right, or the reply where the read is refused.
#[derive(Clone, Copy, PartialEq)]
struct Reading(Result<Right, Reply>);

impl fmt::Display for Reading {
    fn fmt<W: fmt::Write>(&self, f: &mut fmt::Formatter<W>) -> fmt::Result {
        match self.0 {
            Ok(right) => write!(f, "{GRANTED} {right}"),
            Err(reply) => write!(f, "{reply}"),
        }
    }
}

const LAST_RIGHT: u16 = 511;

fn last_right(book: &Book) -> Reading {
    let read = daybook::right_at(book, LAST_RIGHT);
    Reading(read.map(Right).map_err(Reply::from))
}

// ---- cases

#[derive(Clone, Copy)]
enum Case {
    Once(Call, Reply),
    Many {
        tried: &'static str,
        series: Series,
        times: u16,
        granted: usize,
    },
    LastRight(Right),
}

const ZEROS: ReplyNumbers = ReplyNumbers {
    number: 0,
    first: 0,
    second: 0,
};

// Granted with the detail 0.
const GRANTED: Reply = Reply(ZEROS);

const GRANTED_1: Reply = Reply(ReplyNumbers { first: 1, ..ZEROS });

const GRANTED_9999: Reply = Reply(ReplyNumbers {
    first: 9999,
    ..ZEROS
});

const TAKEN: Reply = Reply(ReplyNumbers { number: 7, ..ZEROS });

const FULL: Reply = Reply(ReplyNumbers {
    number: 13,
    ..ZEROS
});

static CASES: [Case; 24] = [
    Case::Once(Call::OpenDay, GRANTED),
    Case::Many {
        tried: "42 directions",
        series: Series::Directions,
        times: 49,
        granted: 24,
    },
    Case::Many {
        tried: "20 profiles",
        series: Series::Profiles,
        times: 20,
        granted: 8,
    },
    Case::Many {
        tried: "100 parties",
        series: Series::Parties,
        times: 100,
        granted: 64,
    },
    Case::Once(
        Call::Direction {
            out: 6,
            into: 5,
            model: 1,
        },
        FULL,
    ),
    Case::Once(
        Call::Direction {
            out: 0,
            into: 1,
            model: 1,
        },
        TAKEN,
    ),
    Case::Once(Call::Profile, FULL),
    Case::Once(
        Call::Party {
            code: *b"10XCZ-CEPS-GRIDE",
            access: 1,
        },
        FULL,
    ),
    Case::Once(Call::OpenDay, GRANTED),
    Case::Once(
        Call::Direction {
            out: 0,
            into: 4,
            model: 1,
        },
        GRANTED,
    ),
    Case::Once(
        Call::Direction {
            out: 4,
            into: 1,
            model: 4,
        },
        GRANTED_1,
    ),
    Case::Once(
        Call::Party {
            code: *b"10XCZ-CEPS-GRIDE",
            access: 17,
        },
        GRANTED,
    ),
    Case::Once(
        Call::Party {
            code: *b"10XSK-SEPS-GRIDB",
            access: 17,
        },
        GRANTED_1,
    ),
    Case::Once(Call::Offer { direction: 0 }, GRANTED_9999),
    Case::Once(Call::Offer { direction: 1 }, GRANTED_9999),
    Case::Once(
        Call::Bid {
            party: 0,
            direction: 1,
        },
        GRANTED,
    ),
    Case::Many {
        tried: "600 bids for new rights",
        series: Series::Rights,
        times: 600,
        granted: 511,
    },
    Case::Once(
        Call::Bid {
            party: 0,
            direction: 0,
        },
        FULL,
    ),
    Case::Once(
        Call::Bid {
            party: 1,
            direction: 1,
        },
        FULL,
    ),
    Case::Once(
        Call::Bid {
            party: 0,
            direction: 1,
        },
        GRANTED,
    ),
    Case::LastRight(Right(RightRead {
        holder: 0,
        direction: 0,
        session: Session(1),
        mw: [1, 0, 0, 0, 0],
    })),
    Case::Many {
        tried: "nominations of 600 new pairs",
        series: Series::Pairs,
        times: 600,
        granted: 512,
    },
    Case::Once(
        Call::Nomination {
            other: 1,
            right: 0,
            mw: 1,
        },
        FULL,
    ),
    Case::Once(
        Call::Nomination {
            other: 0,
            right: 511,
            mw: 2,
        },
        GRANTED_1,
    ),
];

fn run_case(report: &mut Report<impl Print>, book: &mut Book, case: Case) -> io::Result<()> {
    match case {
        Case::Once(call, expected) => {
            print!(report.rt; "{call} = ")?;
            report.compare(&Reply::from(answer_to(book, call)), &expected)
        }
        Case::Many {
            tried,
            series,
            times,
            granted,
        } => {
            let found = count_granted(book, series, times);
            print!(report.rt; "{tried}: {found} granted, expected {granted}")?;
            report.end(found == granted)
        }
        Case::LastRight(expected) => {
            print!(report.rt; "right {LAST_RIGHT} = ")?;
            report.compare(&last_right(book), &Reading(Ok(expected)))
        }
    }
}

pub fn run(report: &mut Report<impl Print>) -> io::Result<()> {
    let mut book = [0u32; cells::CELLS];
    for case in &CASES {
        run_case(report, &mut book, *case)?;
    }
    Ok(())
}
