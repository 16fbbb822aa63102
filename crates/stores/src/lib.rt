// The stores in the cells of a day book that the calls share.
#![tactic(auto)]

ghost use Rattle.std.specs.Prelude.{◌≡◌, ◌+◌, ◌*◌, ◌<◌, ◌≤◌, length, set, MatchOption};
ghost use Rattle.rules.specs.Book.{place, flag, direction_limit};
ghost use Rattle.cells.specs.Layout.{CELLS, OFFERED, MATCHED};
ghost use Rattle.cells.specs.View.{counted};
ghost use Rattle.stores.specs.Stores.{clocked, emptied, with_row};

use calendar::Date;
use cells::{Book, Place, Table};
use day::Day;
use rules::Session;

// An offer.
pub fn set_offered(book: &mut Book, at: Place, mw: u16)
    ensures { book.new ≡ set book.old (OFFERED + place at.row at.hour.0) mw }
{
    book[cells::OFFERED_MW + at.position()] = mw as u32;
}

// The session of a direction is matched.
pub fn set_matched(book: &mut Book, direction: u8, session: Session)
    requires { (direction < direction_limit) × ((1 ≤ session.0) × (session.0 ≤ 25)) }
    ensures { book.new ≡ set book.old (MATCHED + flag direction session.0) 1 }
{
    book[cells::MATCHED_SESSIONS + cells::flag_of(direction, session)] = 1;
}

// The time of a granted timed call.
pub fn set_clock(book: &mut Book, time: u32)
    ensures { book.new ≡ clocked time book.old }
{
    book[cells::CLOCK] = time;
    book[cells::STARTED] = 1;
}

// An empty book of a day; without a date year, month and day are 0.
pub fn clear(book: &mut Book, date: Option<Date>, day: Day)
    ensures { MatchOption date (book.new ≡ emptied 0 0 0 day.hours day.weekday) (λ d. book.new ≡ emptied d.year d.month d.day day.hours day.weekday) }
{
    let date = date.unwrap_or(Date {
        year: 0,
        month: 0,
        day: 0,
    });
    *book = [0u32; cells::CELLS];
    book[cells::YEAR] = date.year as u32;
    book[cells::MONTH] = date.month as u32;
    book[cells::DAY] = date.day as u32;
    book[cells::HOURS] = day.hours as u32;
    book[cells::WEEKDAY] = day.weekday;
}

// A row more in the table at a cell, after its first `count` rows, which are as long.
#[tactic(auto, using(rules::proofs::Stores::copied), unfolding(crate::specs::Stores::with_row))]
pub fn add_row(book: &mut Book, table: usize, count: u32, row: &[u32])
    requires few { count < CELLS }
    requires room { table + 1 + (count * length row.now + length row.now) ≤ CELLS }
    ensures { book.new ≡ with_row table count row.now book.old }
{
    let first = table + 1 + count as usize * row.len();
    book[first..first + row.len()].copy_from_slice(row);
    book[table] = count + 1;
}

// The last row of a table, by its number; the table's count becomes the number and 1. Takes any slice of the table's width: an array would ask more of callers.
pub fn set_last_row<const WIDTH: usize>(
    book: &mut Book,
    table: &Table<WIDTH>,
    number: u32,
    row: &[u32],
)
    requires width { length row.now ≡ WIDTH }
    requires room { number < table.now.limit }
    ensures { book.new ≡ with_row table.now.at number row.now book.old }
{
    add_row(book, table.at, number, row);
}

// A row more in a table that has room: its number. No value carries that it has room: that is a fact of the cells as they are before the store.
pub fn place_row<const WIDTH: usize>(
    book: &mut Book,
    table: &Table<WIDTH>,
    row: &[u32; WIDTH],
) -> u32
    requires { counted book.old table.now.at table.now.limit < table.now.limit }
    ensures number { result ≡ counted book.old table.now.at table.now.limit }
    ensures cells { book.new ≡ with_row table.now.at result row.now book.old }
{
    let number = table.count(book);
    set_last_row(book, table, number, row);
    number
}
