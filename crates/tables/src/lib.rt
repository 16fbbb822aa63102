// Rows of the tables as what they hold, and the reads of single cells: the MW of an hour, a matched session.
#![tactic(auto)]

ghost use Rattle.std.specs.Prelude.{◌≡◌, ◌+◌, get_or};
ghost use Rattle.rules.specs.Book.{place, left_at, shortfall_at};
ghost use Rattle.rules.specs.Refusals.{is_matched};
ghost use Rattle.cells.specs.Layout.{OFFERED, GRANTED};
ghost use Rattle.cells.specs.View.{book_of, direction_read, right_read};
ghost use Rattle.tables.specs.Rows.{direction_of};

use cells::{Book, Place};
use rules::Session;

// A direction: its operators and its model, as numbers: the cells may hold any, and an enum would be turned back in each clause.
#[derive(Clone, Copy, PartialEq, Eq)]
pub struct Direction {
    pub out: u32,
    pub into: u32,
    pub model: u32,
}

// What tells the standing right of a bid in the four-hour model from others.
#[derive(Clone, Copy, PartialEq, Eq)]
pub struct RightKey {
    pub holder: u8,
    pub direction: u8,
    pub session: Session,
}

// By the cells of its row.
impl From<[u32; 3]> for Direction {
    ghost from_gives = { λ row direction. direction_of direction ≡ direction_read row };

    fn from(row: [u32; 3]) -> Direction {
        let [out, into, model] = row;
        Direction { out, into, model }
    }
}

impl RightKey {
    // By the first cells of a right's row. Not `From`, since the row has more than the key.
    pub fn of_row(row: &[u32; 8]) -> Self
        ensures holder { result.holder ≡ (right_read row.now).holder }
        ensures direction { result.direction ≡ (right_read row.now).direction }
        ensures session { result.session.0 ≡ (right_read row.now).session }
    {
        RightKey {
            holder: (row[0] % 256) as u8,
            direction: (row[1] % 256) as u8,
            session: Session((row[2] % 256) as u8),
        }
    }
}

// The MW of a place, offered and granted. Each for itself: a function that is told the table takes as many lines.
fn offered_at(book: &Book, at: Place) -> u32
    ensures { result ≡ get_or book.now (OFFERED + place at.row at.hour.0) 0 }
{
    book[cells::OFFERED_MW + at.position()]
}

pub fn granted_at(book: &Book, at: Place) -> u32
    ensures { result ≡ get_or book.now (GRANTED + place at.row at.hour.0) 0 }
{
    book[cells::GRANTED_MW + at.position()]
}

// What is left there.
pub fn left_at(book: &Book, at: Place) -> u32
    ensures { result ≡ left_at (book_of book.now) at.row at.hour.0 }
{
    offered_at(book, at).saturating_sub(granted_at(book, at))
}

// By how much the granted MW exceed the offer there.
pub fn shortfall_at(book: &Book, at: Place) -> u32
    ensures { result ≡ shortfall_at (book_of book.now) at.row at.hour.0 }
{
    granted_at(book, at).saturating_sub(offered_at(book, at))
}

// The session of a direction was matched.
pub fn is_matched(book: &Book, direction: u8, session: Session) -> bool
    ensures { result ≡ is_matched (book_of book.now).matched direction session.0 }
{
    let at = cells::flag_of(direction, session);
    at < cells::FLAGS && book[cells::MATCHED_SESSIONS + at] == 1
}
