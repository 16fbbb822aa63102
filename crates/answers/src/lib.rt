// What the calls answer: a verdict before anything is stored, the replies of the reads, and the numbers of an answer. What each call promises stands in specs/.
#![tactic(auto)]

ghost use Rattle.std.specs.Prelude.{◌≡◌, nat_lt};
ghost use Rattle.rules.specs.Said.{said, said_refusal, said_numbers, capacity_number};
ghost use Rattle.rules.specs.Refusals.{party_unknown, direction_unknown, profile_unknown, hour_unknown};
ghost use Rattle.cells.specs.View.{book_of, right_read};
ghost use Rattle.answers.specs.Promises.{window_verdict};
ghost use Rattle.answers.specs.Capacities.{capacity_unknown, Finds};
ghost use Rattle.answers.specs.Entries.{FindsDirection, FindsSession, FindsAccess, FindsRight};

use cells::{Book, Place};
use day::DaySession;
use rules::{Answer, CapacityOf, Hour, Refusal, ReplyNumbers, Session, Timing};
use tables::{Direction, RightKey};

// What an offer is for and a read of what is left asks for: a direction or a profile, by number.
#[derive(Clone, Copy, PartialEq, Eq)]
pub enum Capacity {
    Direction(u8),
    Profile(u8),
}

// Capacity left, and the shortfall.
#[derive(Clone, Copy, PartialEq, Eq)]
pub struct LeftRead {
    pub left: u32,
    pub shortfall: u32,
}

// A right.
#[derive(Clone, Copy, PartialEq, Eq)]
pub struct RightRead {
    pub holder: u8,
    pub direction: u8,
    pub session: Session,
    pub mw: [u32; 5],
}

// ---- tests that several calls share

// Earlier than the latest granted timed call.
pub fn before_clock(book: &Book, time: u32) -> bool
    ensures { result ≡ nat_lt time (book_of book.now).clock }
{
    time < cells::clock(book)
}

// Of a direction, a profile and a party each for itself: the rules have a definition for each.
pub fn direction_unknown(book: &Book, direction: u8) -> bool
    ensures { result ≡ direction_unknown (book_of book.now) direction }
{
    cells::DIRECTIONS.count(book) <= direction as u32
}

pub fn hour_unknown(book: &Book, hour: Hour) -> bool
    ensures { result ≡ hour_unknown (book_of book.now) hour.0 }
{
    let number = hour.0;
    number < 1 || cells::hours(book) < number
}

fn profile_unknown(book: &Book, profile: u8) -> bool
    ensures { result ≡ profile_unknown (book_of book.now) profile }
{
    cells::PROFILES.count(book) <= profile as u32
}

fn capacity_unknown(book: &Book, capacity: Capacity) -> bool
    ensures { result ≡ capacity_unknown (book_of book.now) capacity }
{
    match capacity {
        Capacity::Direction(direction) => direction_unknown(book, direction),
        Capacity::Profile(profile) => profile_unknown(book, profile),
    }
}

// The capacity's place in an hour; none where it or the hour isn't there.
pub fn place_in(book: &Book, capacity: Capacity, hour: Hour) -> Option<Place>
    ensures { Finds (book_of book.now) capacity hour result }
{
    if capacity_unknown(book, capacity) || hour_unknown(book, hour) {
        return None;
    }
    let row = match capacity {
        Capacity::Direction(direction) => direction,
        Capacity::Profile(profile) => cells::PROFILE_ROW + profile,
    };
    Some(Place { row, hour })
}

pub fn party_unknown(book: &Book, party: u8) -> bool
    ensures { result ≡ party_unknown (book_of book.now) party }
{
    cells::PARTIES.count(book) <= party as u32
}

// ---- entries by their numbers

// A direction; none where it isn't there.
#[tactic(auto, using(crate::proofs::Entries::no_direction))]
pub fn direction_in(book: &Book, direction: u8) -> Option<Direction>
    ensures { FindsDirection (book_of book.now) direction result }
{
    let row = cells::directions(book).get(direction as usize)?;
    Some(Direction::from(*row))
}

// A session of a direction; none where either isn't there. Two numbers, here and elsewhere: the calls and the definitions of the rules have them apart.
pub fn session_in(book: &Book, direction: u8, session: Session) -> Option<DaySession>
    ensures { FindsSession (book_of book.now) direction session result }
{
    let model = direction_in(book, direction)?.model;
    let known = cells::day(book).session(model, session);
    known.is_there().then_some(known)
}

// The map of a party's access; none where the party isn't there.
#[tactic(auto, using(crate::proofs::Entries::no_party))]
pub fn access_in(book: &Book, party: u8) -> Option<u32>
    ensures { FindsAccess (book_of book.now) party result }
{
    let row = cells::parties(book).get(party as usize)?;
    Some(row[16])
}

// The MW of a right, by the cells of its row.
#[tactic(auto, unfolding(cells::specs::View::part, cells::specs::View::cell_from, cells::specs::Loops::rows))]
fn mw_of(row: &[u32; 8]) -> [u32; 5]
    ensures { result ≡ (right_read row.now).mw }
{
    std::array::from_fn(|k| row[3 + k])
}

// A right; none where it isn't there.
#[tactic(auto, using(crate::proofs::Entries::no_right))]
pub fn right_in(book: &Book, right: u16) -> Option<RightRead>
    ensures { FindsRight (book_of book.now) right result }
{
    let row = cells::rights(book).get(right as usize)?;
    let key = RightKey::of_row(row);
    Some(RightRead {
        holder: key.holder,
        direction: key.direction,
        session: key.session,
        mw: mw_of(row),
    })
}

// What the window of a call finds.
pub fn window_verdict(timing: Timing) -> Result<(), Refusal>
    ensures { result ≡ window_verdict timing }
{
    match timing {
        Timing::Early => Err(Refusal::TooEarly),
        Timing::Within => Ok(()),
        Timing::Late => Err(Refusal::TooLate),
    }
}

// ---- the paper's numbers

// A refusal with no details.
fn no_details(number: u8) -> ReplyNumbers
    ensures { result ≡ record { number = number; first = 0; second = 0 } }
{
    ReplyNumbers {
        number,
        first: 0,
        second: 0,
    }
}

// 0 for the direction, or 1 + the profile's number.
fn capacity_number(capacity: CapacityOf) -> u32
    ensures { result ≡ capacity_number capacity }
{
    match capacity {
        CapacityOf::Direction => 0,
        CapacityOf::Profile(p) => 1 + p as u32,
    }
}

fn refusal_numbers(refusal: Refusal) -> ReplyNumbers
    ensures { said_numbers result ≡ said_refusal refusal }
{
    match refusal {
        Refusal::Record => no_details(1),
        Refusal::Date => no_details(17),
        Refusal::Field => no_details(3),
        Refusal::SetupShut => no_details(4),
        Refusal::Clock => no_details(5),
        Refusal::Unknown => no_details(6),
        Refusal::Taken => no_details(7),
        Refusal::TooEarly => no_details(16),
        Refusal::TooLate => no_details(8),
        Refusal::Hours => no_details(9),
        Refusal::Access => no_details(10),
        Refusal::Owner => no_details(11),
        Refusal::Cycle => no_details(12),
        Refusal::Full => no_details(13),
        Refusal::Short(hour, capacity) => ReplyNumbers {
            number: 15,
            first: hour.0 as u32,
            second: capacity_number(capacity),
        },
    }
}

// The paper's number of an answer and both details. Not `From`: its clause would be a ghost member that says the same equation, and `daybook::numbers`
// would state it again.
pub fn numbers(answer: Answer) -> ReplyNumbers
    ensures { said_numbers result ≡ said answer }
{
    match answer {
        Ok(detail) => ReplyNumbers {
            number: 0,
            first: detail,
            second: 0,
        },
        Err(refusal) => refusal_numbers(refusal),
    }
}
