// The matching of a direction's session, once. It is checked whole before anything is stored.
#![tactic(auto)]

ghost use Rattle.std.specs.Prelude.{◌≡◌, nat_lt};
ghost use Rattle.rules.specs.Windows.{latest};
ghost use Rattle.rules.specs.Nominations.{count_rights};
ghost use Rattle.rules.specs.Refusals.{number};
ghost use Rattle.cells.specs.View.{book_of, right_read};
ghost use Rattle.answers.specs.Promises.{Judged, Answers};
ghost use Rattle.matching.specs.Work.{match_of, is_of, Placed};

use cells::Book;
use rules::{Answer, Refusal, Session};
use tables::RightKey;

// The matching of a direction's session, and when.
#[derive(Clone, Copy)]
pub struct MatchCall {
    pub time: u32,
    pub direction: u8,
    pub session: Session,
}

// ---- tests

fn match_field(time: u32) -> bool
    ensures { result ≡ nat_lt latest time }
{
    time > rules::LATEST
}

fn match_verdict(book: &Book, call: MatchCall) -> Result<(), Refusal>
    ensures { Judged (book_of book.now) (match_of call) result }
{
    if match_field(call.time) {
        return Err(Refusal::Field);
    }
    if answers::before_clock(book, call.time) {
        return Err(Refusal::Clock);
    }
    let known = answers::session_in(book, call.direction, call.session).ok_or(Refusal::Unknown)?;
    answers::window_verdict(windows::matching_timing(known, call.time))?;
    if tables::is_matched(book, call.direction, call.session) {
        return Err(Refusal::Cycle);
    }
    Ok(())
}

// ---- the count of rights

// Two fields of three, so no derived equality.
#[tactic(auto, unfolding(crate::specs::Work::is_of))]
fn is_right_of_session(row: &[u32; 8], direction: u8, session: Session) -> bool
    ensures { result ≡ is_of direction session.0 (right_read row.now) }
{
    let key = RightKey::of_row(row);
    key.direction == direction && key.session == session
}

// All rights of a direction and session, nominated or not.
fn count_rights(book: &Book, direction: u8, session: Session) -> u32
    ensures { result ≡ count_rights direction session.0 (book_of book.now).rights }
{
    let rows = cells::rights(book);
    let count = rows
        .iter()
        .filter(|row| is_right_of_session(row, direction, session))
        .count();
    count as u32
}

// ---- a granted matching

// The stores: the count of the session's rights.
fn place_match(book: &mut Book, call: MatchCall) -> u32
    requires { number (book_of book.old) (match_of call) ≡ 0 }
    ensures { Placed book.old call result book.new }
{
    let count = count_rights(book, call.direction, call.session);
    stores::set_matched(book, call.direction, call.session);
    stores::set_clock(book, call.time);
    count
}

pub fn match_session(book: &mut Book, call: MatchCall) -> Answer
    ensures { Answers book.old (match_of call) result book.new }
{
    match_verdict(book, call)?;
    Ok(place_match(book, call))
}
