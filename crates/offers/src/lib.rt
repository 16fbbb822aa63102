// Offers. No call has a `requires`: each promise is an equation with the rules, whatever the cells hold.
#![tactic(auto)]

ghost use Rattle.std.specs.Prelude.{◌≡◌, ◌||◌, nat_lt};
ghost use Rattle.rules.specs.Windows.{latest};
ghost use Rattle.cells.specs.View.{book_of};
ghost use Rattle.answers.specs.Promises.{Answers};
ghost use Rattle.offers.specs.Work.{offer_call, FindsModel, JudgedOffer, Placed};

use answers::Capacity;
use cells::{Book, Place};
use rules::{Answer, Hour, Refusal};

// An operator's offer: the MW of a direction or a profile in an hour, and when.
#[derive(Clone, Copy)]
pub struct OfferCall {
    pub time: u32,
    pub capacity: Capacity,
    pub hour: Hour,
    pub mw: u16,
}

// ---- tests

// The time or the MW is out of range.
fn offer_field(time: u32, mw: u16) -> bool
    ensures { result ≡ (nat_lt latest time || nat_lt 9999 mw) }
{
    time > rules::LATEST || mw > rules::MOST_MW
}

// The model of the sessions whose windows an offer keeps: a profile's hour is taken as a one-hour session. None for a direction that isn't there.
fn model_of(book: &Book, capacity: Capacity) -> Option<u32>
    ensures { FindsModel (book_of book.now) capacity result }
{
    match capacity {
        Capacity::Direction(direction) => Some(answers::direction_in(book, direction)?.model),
        Capacity::Profile(_) => Some(1),
    }
}

// Where nothing is against the offer, its place.
fn offer_verdict(book: &Book, call: OfferCall) -> Result<Place, Refusal>
    ensures { JudgedOffer (book_of book.now) call result }
{
    if offer_field(call.time, call.mw) {
        return Err(Refusal::Field);
    }
    if answers::before_clock(book, call.time) {
        return Err(Refusal::Clock);
    }
    let place = answers::place_in(book, call.capacity, call.hour).ok_or(Refusal::Unknown)?;
    let model = model_of(book, call.capacity).ok_or(Refusal::Unknown)?;
    let day = cells::day(book);
    answers::window_verdict(windows::offer_timing(day, model, call.hour, call.time))?;
    Ok(place)
}

// ---- the call

// Stores the MW of a place, which may be fewer than are granted there, and answers what is then left.
fn place_offer(book: &mut Book, call: OfferCall, at: Place) -> u32
    ensures { Placed book.old call at result book.new }
{
    let granted = tables::granted_at(book, at);
    stores::set_offered(book, at, call.mw);
    stores::set_clock(book, call.time);
    (call.mw as u32).saturating_sub(granted)
}

pub fn offer(book: &mut Book, call: OfferCall) -> Answer
    ensures { Answers book.old (offer_call call) result book.new }
{
    let place = offer_verdict(book, call)?;
    Ok(place_offer(book, call, place))
}
