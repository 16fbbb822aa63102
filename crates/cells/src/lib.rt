// The cells of a day book: one lent array with a table at each fixed place, the day's own cells, and the count of a table. Nothing is assumed of what the cells hold.
#![tactic(auto)]

ghost use Rattle.std.specs.Prelude.{◌≡◌, ◌+◌, ◌*◌, ◌<◌, ◌≤◌, nat_le};
ghost use Rattle.rules.specs.Book.{flag, direction_limit, party_limit, right_limit, pair_limit};
ghost use Rattle.cells.specs.Layout.{CELLS, DIRECTIONS, PARTIES, RIGHTS, PAIRS};
ghost use Rattle.cells.specs.View.{InHour, Places, counted, rows_in, day_hours_in, started_in, weekday_in, clock_in};

use day::Day;
use rules::{Hour, Session};

// The date of the day: year, month and day of the month; numbers that are no date where it has none.
pub const YEAR: usize = 0;

pub const MONTH: usize = 1;

pub const DAY: usize = 2;

// The count of hours of the day.
pub const HOURS: usize = 3;

// Monday 1 to Sunday 7.
pub const WEEKDAY: usize = 4;

// The time of the latest granted timed call.
pub const CLOCK: usize = 5;

// Not 0 after a granted timed call.
pub const STARTED: usize = 6;

// The offers: 32 rows of 25 hours, rows 0 to 23 for the directions, 24 to 31 for the profiles.
pub const OFFERED_MW: usize = 1178;

// The granted MW, in rows as those of the offers.
pub const GRANTED_MW: usize = 1978;

// The matched sessions: 24 rows of 25 sessions, 1 where the session of the direction was matched.
pub const MATCHED_SESSIONS: usize = 2778;

// How many cells a book has.
pub const CELLS: usize = 14132;

// One array that the caller lends to each call: no call allocates or copies a book, and any content is one.
pub type Book = [u32; CELLS];

// A table: the cell of its count, and behind it the rows, of so many cells each.
#[derive(Clone, Copy)]
pub struct Table<const WIDTH: usize> {
    pub at: usize,
    pub limit: u32,
    ghost wide: { 0 < WIDTH },
    ghost inside: { at + 1 + limit * WIDTH ≤ CELLS },
}

// Rows of an out operator, an in operator and a model.
pub const DIRECTIONS: Table<3> = Table { at: 7, limit: 24 };

// Rows of a map of directions.
pub const PROFILES: Table<1> = Table { at: 80, limit: 8 };

// Rows of the 16 bytes of a code, and an access map.
pub const PARTIES: Table<17> = Table { at: 89, limit: 64 };

// Rows of a holder, a direction, a session and five MW.
pub const RIGHTS: Table<8> = Table {
    at: 3378,
    limit: 512,
};

// Rows of a right, an out party, an in party, five MW of the out side and five of the in side.
pub const PAIRS: Table<13> = Table {
    at: 7475,
    limit: 512,
};

// How many flags the matched sessions have.
pub const FLAGS: usize = 600;

// The profiles' rows of MW follow those of the directions.
pub const PROFILE_ROW: u8 = 24;

// An hour of a row of the offers and of the granted MW, which both tables have.
#[derive(Clone, Copy)]
pub struct Place {
    pub row: u8,
    pub hour: Hour,
    ghost in_tables: { InHour row hour.0 },
}

impl Place {
    // Where its MW stand among the offers, and among the granted MW.
    pub fn position(self) -> usize
        ensures { Places self.row self.hour.0 result }
    {
        self.row as usize * 25 + (self.hour.0 as usize - 1)
    }
}

#[tactic(auto, unfolding(crate::specs::View::day_hours_in))]
pub fn hours(book: &Book) -> u8
    ensures { result ≡ day_hours_in book.now }
{
    match book[HOURS] {
        23 => 23,
        25 => 25,
        _ => 24,
    }
}

pub fn weekday(book: &Book) -> u32
    ensures { result ≡ weekday_in book.now }
{
    book[WEEKDAY]
}

pub fn day(book: &Book) -> Day
    ensures hours { result.hours ≡ day_hours_in book.now }
    ensures weekday { result.weekday ≡ weekday_in book.now }
{
    Day {
        hours: hours(book),
        weekday: weekday(book),
    }
}

pub fn clock(book: &Book) -> u32
    ensures { result ≡ clock_in book.now }
{
    book[CLOCK]
}

pub fn is_started(book: &Book) -> bool
    ensures { result ≡ started_in book.now }
{
    book[STARTED] != 0
}

// How many rows the table at this cell has: a count past the limit is read as that of a full table.
pub fn count_in(book: &Book, table: usize, limit: u32) -> u32
    requires { table < CELLS }
    ensures { result ≡ counted book.now table limit }
{
    book[table].min(limit)
}

impl<const WIDTH: usize> Table<WIDTH> {
    // How many rows it has.
    pub fn count(&self, book: &Book) -> u32
        ensures { result ≡ counted book.now self.now.at self.now.limit }
    {
        count_in(book, self.at, self.limit)
    }

    // It has no room for a row more.
    pub fn is_full(&self, book: &Book) -> bool
        ensures { result ≡ nat_le self.now.limit (counted book.now self.now.at self.now.limit) }
    {
        self.limit <= self.count(book)
    }

    // Its rows, each as its cells.
    pub fn rows<'a>(&self, book: &'a Book) -> &'a [[u32; WIDTH]]
        ensures { result.now ≡ rows_in book.now self.now.at WIDTH self.now.limit }
    {
        let first = self.at + 1;
        let end = first + self.count(book) as usize * WIDTH;
        let (rows, _) = book[first..end].as_chunks();
        rows
    }

    // The first cell of row number i.
    pub fn row(&self, i: u32) -> usize
        requires { i < self.now.limit }
        ensures begins { result ≡ self.now.at + 1 + i * WIDTH }
        ensures inside { result + WIDTH ≤ CELLS }
    {
        self.at + 1 + i as usize * WIDTH
    }
}

// ---- the rows of each table, where `Layout` has them

pub fn directions(book: &Book) -> &[[u32; 3]]
    ensures { result.now ≡ rows_in book.now DIRECTIONS 3 direction_limit }
{
    DIRECTIONS.rows(book)
}

pub fn parties(book: &Book) -> &[[u32; 17]]
    ensures { result.now ≡ rows_in book.now PARTIES 17 party_limit }
{
    PARTIES.rows(book)
}

pub fn rights(book: &Book) -> &[[u32; 8]]
    ensures { result.now ≡ rows_in book.now RIGHTS 8 right_limit }
{
    RIGHTS.rows(book)
}

pub fn pairs(book: &Book) -> &[[u32; 13]]
    ensures { result.now ≡ rows_in book.now PAIRS 13 pair_limit }
{
    PAIRS.rows(book)
}

// Where the flag of a direction's session stands among the matched sessions.
pub fn flag_of(direction: u8, session: Session) -> usize
    ensures { result ≡ flag direction session.0 }
{
    let first = direction as usize * 25;
    let number = session.0;
    if number == 0 {
        return first;
    }
    first + (number as usize - 1)
}
