// The public calls of a day book. The book is a lent array of cells; no call has a `requires`, whatever the cells hold. They take their numbers one by one:
// demand 1 speaks of these.
#![tactic(auto)]

ghost use Rattle.std.specs.Prelude.{◌≡◌};
ghost use Rattle.rules.specs.Said.{said, said_numbers};
ghost use Rattle.rules.specs.Calls.{AddDirection, AddProfile, AddParty, OfferDirection, OfferProfile, Bid, Nominate, Match};
ghost use Rattle.answers.specs.Promises.{Opens, Answers, ReadsDirection, ReadsProfile, ReadsRight, ReadsConfirmed};

use answers::{Capacity, LeftRead, RightRead};
use bids::BidCall;
use cells::Book;
use matching::MatchCall;
use nomination_tests::NominationCall;
use offers::OfferCall;
use parties::Party;
use rules::{Answer, Hour, Refusal, ReplyNumbers, Session};
use tables::Direction;

// ---- opening and set-up

// An empty book of the day with this date. Refused, it is that of a Monday of 24 hours, without a date.
pub fn open_day(book: &mut Book, year: u16, month: u8, day: u8) -> Answer
    ensures { Opens year month day result book.new }
{
    opening::open_day(book, year, month, day)
}

// Out operator, in operator, model 1 or 4. Granted: the direction's number.
pub fn add_direction(book: &mut Book, out: u8, into: u8, model: u8) -> Answer
    ensures { Answers book.old (AddDirection out into model) result book.new }
{
    let direction = Direction {
        out: out as u32,
        into: into as u32,
        model: model as u32,
    };
    setup::add_direction(book, direction)
}

// A map of directions, bit d for direction d. Granted: the profile's number.
pub fn add_profile(book: &mut Book, map: u32) -> Answer
    ensures { Answers book.old (AddProfile map) result book.new }
{
    setup::add_profile(book, map)
}

// A party code and a map of operators, bit o for operator o. Granted: the party's number.
pub fn add_party(book: &mut Book, code: [u8; 16], access: u8) -> Answer
    ensures { Answers book.old (AddParty code access) result book.new }
{
    let party = Party { code, access };
    parties::add_party(book, party)
}

// ---- offers

// The MW of a direction in an hour, also fewer than are granted there. Granted: what is left. A call for each kind of capacity: these are the public names.
pub fn offer_direction(book: &mut Book, time: u32, direction: u8, hour: Hour, mw: u16) -> Answer
    ensures { Answers book.old (OfferDirection time direction hour.0 mw) result book.new }
{
    let call = OfferCall {
        time,
        capacity: Capacity::Direction(direction),
        hour,
        mw,
    };
    offers::offer(book, call)
}

// The MW of a profile in an hour, also fewer than are granted there. Granted: what is left.
pub fn offer_profile(book: &mut Book, time: u32, profile: u8, hour: Hour, mw: u16) -> Answer
    ensures { Answers book.old (OfferProfile time profile hour.0 mw) result book.new }
{
    let call = OfferCall {
        time,
        capacity: Capacity::Profile(profile),
        hour,
        mw,
    };
    offers::offer(book, call)
}

// ---- bids

// Five MW, one for each hour of the session: all or none. Granted: the number of the right.
pub fn bid(
    book: &mut Book,
    time: u32,
    party: u8,
    direction: u8,
    session: Session,
    mw: [u16; 5],
) -> Answer
    ensures { Answers book.old (Bid time party direction session.0 mw) result book.new }
{
    let call = BidCall {
        time,
        party,
        direction,
        session,
        mw,
    };
    bids::bid(book, call)
}

// ---- nominations and matching

// The sender is the out party on side 0 and the in party on side 1. Granted: bit k stands where the side's total is above the right in hour k of the session.
pub fn nominate(
    book: &mut Book,
    time: u32,
    sender: u8,
    other: u8,
    right: u16,
    side: u8,
    mw: [u16; 5],
) -> Answer
    ensures { Answers book.old (Nominate time sender other right side mw) result book.new }
{
    let call = NominationCall {
        time,
        sender,
        other,
        right,
        side,
        mw,
    };
    nominations::nominate(book, call)
}

// A direction's session, once. Granted: the count of its rights.
pub fn match_session(book: &mut Book, time: u32, direction: u8, session: Session) -> Answer
    ensures { Answers book.old (Match time direction session.0) result book.new }
{
    let call = MatchCall {
        time,
        direction,
        session,
    };
    matching::match_session(book, call)
}

// ---- reads

// What is left of a direction in an hour, and the shortfall. A call for each kind of capacity: these are the public names.
pub fn left_of_direction(book: &Book, direction: u8, hour: Hour) -> Result<LeftRead, Refusal>
    ensures { ReadsDirection book.now direction hour.0 result }
{
    reads::left_of(book, Capacity::Direction(direction), hour)
}

// What is left of a profile in an hour, and the shortfall.
pub fn left_of_profile(book: &Book, profile: u8, hour: Hour) -> Result<LeftRead, Refusal>
    ensures { ReadsProfile book.now profile hour.0 result }
{
    reads::left_of(book, Capacity::Profile(profile), hour)
}

pub fn right_at(book: &Book, right: u16) -> Result<RightRead, Refusal>
    ensures { ReadsRight book.now right result }
{
    reads::right_at(book, right)
}

pub fn confirmed_of(book: &Book, right: u16, out: u8, into: u8) -> Result<[u32; 5], Refusal>
    ensures { ReadsConfirmed book.now right out into result }
{
    confirmed::confirmed_of(book, right, out, into)
}

// ---- the paper's numbers

// An answer's number, 0 for granted, and its two details.
pub fn numbers(answer: Answer) -> ReplyNumbers
    ensures { said_numbers result ≡ said answer }
{
    answers::numbers(answer)
}
