// The call that a line makes. Its numbers fit their fields.
#![tactic(auto)]

ghost use Rattle.answers.specs.Promises.{Opens, Answers};
ghost use Rattle.rehearse_numbers.specs.Fields.{byte_at, two_at};
ghost use Rattle.rehearse_calls.specs.Made.{bid_of, nominate_of, line_call};

use cells::Book;
use rehearse_lines::{CallKind, CapacityKind};
use rehearse_numbers::kept;
use rules::{Answer, Hour, Session};

pub fn open(book: &mut Book, given: [u64; 10]) -> Answer
    ensures { Opens (two_at given 0) (byte_at given 1) (byte_at given 2) result book.new }
{
    let [year, month, day, ..] = given;
    daybook::open_day(book, kept(year), kept(month), kept(day))
}

fn bid(book: &mut Book, given: [u64; 10]) -> Answer
    ensures { Answers book.old (bid_of given) result book.new }
{
    let [time, party, direction, session, a, b, c, d, e, ..] = given;
    let session = Session(kept(session));
    let mw = [a, b, c, d, e].map(|mw| kept(mw));
    daybook::bid(book, kept(time), kept(party), kept(direction), session, mw)
}

fn nominate(book: &mut Book, given: [u64; 10]) -> Answer
    ensures { Answers book.old (nominate_of given) result book.new }
{
    let [time, sender, other, right, side, a, b, c, d, e] = given;
    let (sender, other) = (kept(sender), kept(other));
    let mw = [a, b, c, d, e].map(|mw| kept(mw));
    daybook::nominate(book, kept(time), sender, other, kept(right), kept(side), mw)
}

// By the kind of the line.
pub fn call(book: &mut Book, kind: CallKind, given: [u64; 10]) -> Answer
    ensures { Answers book.old (line_call kind given) result book.new }
{
    match kind {
        CallKind::Direction => {
            let [out, into, model, ..] = given;
            daybook::add_direction(book, kept(out), kept(into), kept(model))
        }
        CallKind::Profile => daybook::add_profile(book, kept(given[0])),
        CallKind::Party(code) => daybook::add_party(book, code, kept(given[0])),
        CallKind::Offer(of) => {
            let [time, number, hour, mw, ..] = given;
            let (number, hour) = (kept(number), Hour(kept(hour)));
            match of {
                CapacityKind::Direction => daybook::offer_direction(
                    book,
                    kept(time),
                    number,
                    hour,
                    kept(mw),
                ),
                CapacityKind::Profile => daybook::offer_profile(
                    book,
                    kept(time),
                    number,
                    hour,
                    kept(mw),
                ),
            }
        }
        CallKind::Bid => bid(book, given),
        CallKind::Nominate => nominate(book, given),
        CallKind::Match => {
            let [time, direction, session, ..] = given;
            daybook::match_session(book, kept(time), kept(direction), Session(kept(session)))
        }
    }
}
