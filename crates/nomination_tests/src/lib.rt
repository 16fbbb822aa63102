// What a nomination names in the book, and the tests of it.
#![tactic(auto)]

ghost use Rattle.std.specs.Prelude.{◌≡◌, ◌||◌, not, if◌then◌else◌, drop, ◌==◌};
ghost use Rattle.rules.specs.Basics.{bit, any_above};
ghost use Rattle.rules.specs.Sessions.{hours_in};
ghost use Rattle.rules.specs.Book.{direction};
ghost use Rattle.rules.specs.Sides.{side_number};
ghost use Rattle.cells.specs.View.{book_of};
ghost use Rattle.tables.specs.Rows.{direction_of};
ghost use Rattle.nomination_tests.specs.Named.{FindsNamed};

use answers::RightRead;
use cells::Book;
use day::DaySession;
use rules::Side;
use tables::Direction;

// The numbers of a nomination.
#[derive(Clone, Copy)]
pub struct NominationCall {
    pub time: u32,
    pub sender: u8,
    pub other: u8,
    pub right: u16,
    // Any number: `Side::try_from` refuses all but 0 and 1.
    pub side: u8,
    pub mw: [u16; 5],
}

// What a nomination names: the map of its sender's access, and its right with the direction and the session.
#[derive(Clone, Copy)]
pub struct Named {
    pub access: u32,
    pub right: RightRead,
    pub direction: Direction,
    pub session: DaySession,
}

// The direction of a right may be none that is there: it is then zeros, as the rules read it.
fn direction_of(book: &Book, right: RightRead) -> Direction
    ensures { direction_of result ≡ direction (book_of book.now).directions right.direction }
{
    let none = Direction {
        out: 0,
        into: 0,
        model: 0,
    };
    answers::direction_in(book, right.direction).unwrap_or(none)
}

// None where the sender, the other party or the right isn't there.
pub fn named_in(book: &Book, call: NominationCall) -> Option<Named>
    ensures { FindsNamed (book_of book.now) call result }
{
    if answers::party_unknown(book, call.other) {
        return None;
    }
    let access = answers::access_in(book, call.sender)?;
    let right = answers::right_in(book, call.right)?;
    let direction = direction_of(book, right);
    let session = cells::day(book).session(direction.model, right.session);
    Some(Named {
        access,
        right,
        direction,
        session,
    })
}

// ---- tests

impl Named {
    // MW for an hour that the right's session lacks.
    pub fn lacking_hours(self, mw: [u16; 5]) -> bool
        ensures { result ≡ any_above 0 (drop (hours_in self.session.day.hours self.session.model self.session.session.0) mw) }
    {
        capacity::any_above(0, mw, self.session.hours())
    }

    // The sender lacks access to the operator of its side.
    pub fn no_access(self, side: Side) -> bool
        ensures { result ≡ not (bit self.access (if side_number side == 0 then self.direction.out else self.direction.into)) }
    {
        let operator = match side {
            Side::Out => self.direction.out,
            Side::In => self.direction.into,
        };
        !rules::has_bit(self.access, operator)
    }

    // Neither party holds the right.
    pub fn not_owner(self, sender: u8, other: u8) -> bool
        ensures { result ≡ not (self.right.holder == sender || self.right.holder == other) }
    {
        self.right.holder != sender && self.right.holder != other
    }
}
