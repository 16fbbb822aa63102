// Bids. A bid is checked whole before anything is stored.
#![tactic(auto)]

ghost use Rattle.std.specs.Prelude.{◌≡◌, ◌||◌, not, drop};
ghost use Rattle.rules.specs.Basics.{bit, any_above};
ghost use Rattle.cells.specs.View.{book_of};
ghost use Rattle.answers.specs.Promises.{Answers};
ghost use Rattle.bids.specs.Work.{bid_of, right_asked, FindsNamed, JudgedBid, Cleared, Placed};

use capacity::SessionHours;
use cells::Book;
use day::DaySession;
use rights::RightOfBid;
use rules::{Answer, Refusal, Session};
use tables::{Direction, RightKey};

// A party's bid: the MW that it asks for in each hour of a direction's session, and when.
#[derive(Clone, Copy)]
pub struct BidCall {
    pub time: u32,
    pub party: u8,
    pub direction: u8,
    pub session: Session,
    pub mw: [u16; 5],
}

impl BidCall {
    // The right that the bid asks for, in a direction of the model.
    fn right_asked(self, model: u32) -> RightOfBid
        ensures { result ≡ right_asked self model }
    {
        let key = RightKey {
            holder: self.party,
            direction: self.direction,
            session: self.session,
        };
        RightOfBid { model, key }
    }
}

// What a bid names, as the book has it: the access of its party, its direction, its session and the hours of the session.
#[derive(Clone, Copy)]
struct Named {
    access: u32,
    direction: Direction,
    session: DaySession,
    hours: SessionHours,
}

// What a bid that nothing refuses books: its hours, its right, and the entry that takes the right.
#[derive(Clone, Copy)]
struct Booking {
    hours: SessionHours,
    right: RightOfBid,
    entry: Option<u32>,
}

// ---- tests

// None where the party, the direction or the session isn't there.
fn named_in(book: &Book, call: BidCall) -> Option<Named>
    ensures { FindsNamed (book_of book.now) call result }
{
    let access = answers::access_in(book, call.party)?;
    let direction = answers::direction_in(book, call.direction)?;
    let session = cells::day(book).session(direction.model, call.session);
    let first = session.first_hour()?;
    let hours = SessionHours {
        direction: call.direction,
        first,
        count: session.hours(),
    };
    Some(Named {
        access,
        direction,
        session,
        hours,
    })
}

// MW for an hour that the session lacks, or none at all.
fn wrong_hours(hours: SessionHours, mw: [u16; 5]) -> bool
    ensures { result ≡ (any_above 0 (drop hours.count mw) || not (any_above 0 mw)) }
{
    capacity::any_above(0, mw, hours.count) || !capacity::any_above(0, mw, 0)
}

fn no_access(access: u32, direction: Direction) -> bool
    ensures { result ≡ not (bit access direction.out || bit access direction.into) }
{
    !(rules::has_bit(access, direction.out) || rules::has_bit(access, direction.into))
}

// ---- the verdict

fn bid_verdict(book: &Book, call: BidCall) -> Result<Booking, Refusal>
    ensures { JudgedBid book.now call result }
{
    if capacity::out_of_range(call.time, call.mw) {
        return Err(Refusal::Field);
    }
    if answers::before_clock(book, call.time) {
        return Err(Refusal::Clock);
    }
    let named = named_in(book, call).ok_or(Refusal::Unknown)?;
    answers::window_verdict(windows::bid_timing(named.session, call.time))?;
    if wrong_hours(named.hours, call.mw) {
        return Err(Refusal::Hours);
    }
    if no_access(named.access, named.direction) {
        return Err(Refusal::Access);
    }
    let right = call.right_asked(named.direction.model);
    let entry = right.entry(book)?;
    if let Some((hour, capacity)) = capacity::shortage(book, named.hours, call.mw).found {
        return Err(Refusal::Short(hour, capacity));
    }
    Ok(Booking {
        hours: named.hours,
        right,
        entry,
    })
}

// ---- a granted bid

// The stores of a granted bid: the number of its right.
fn place_bid(book: &mut Book, call: BidCall, booking: Booking) -> u32
    requires { Cleared book.old call booking }
    ensures { Placed book.old call result book.new }
{
    capacity::grant_hours(book, booking.hours, call.mw);
    let number = booking.right.take_mw(book, booking.entry, call.mw);
    stores::set_clock(book, call.time);
    number
}

pub fn bid(book: &mut Book, call: BidCall) -> Answer
    ensures { Answers book.old (bid_of call) result book.new }
{
    let booking = bid_verdict(book, call)?;
    Ok(place_bid(book, call, booking))
}
