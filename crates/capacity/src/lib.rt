// The MW of a bid and of a nomination in range, the search for a shortage, and the granting of a bid's hours, in place.
#![tactic(auto)]

ghost use Rattle.std.specs.Prelude.{◌≡◌, ◌+◌, ◌<◌, ◌≤◌, ◌||◌, drop, length, nat_lt, take};
ghost use Rattle.rules.specs.Basics.{any_above};
ghost use Rattle.rules.specs.Bids.{shortage};
ghost use Rattle.rules.specs.Book.{left_at, profile_limit};
ghost use Rattle.rules.specs.Searches.{compared, to_last_asked};
ghost use Rattle.rules.specs.Windows.{latest};
ghost use Rattle.cells.specs.Layout.{CELLS, PROFILES};
ghost use Rattle.cells.specs.View.{book_of, counted};
ghost use Rattle.stores.specs.Bids.{added_cell, granted_profile, granted_hour, granted_hours, added_five};
ghost use Rattle.capacity.specs.Search.{Hours, InDirection, InProfile, as_shortage};

use cells::{Book, Place};
use rules::{CapacityOf, Hour};

// The hours of a session of a direction.
#[derive(Clone, Copy)]
pub struct SessionHours {
    pub direction: u8,
    pub first: Hour,
    pub count: u8,
    ghost inside: { Hours direction first.0 count },
}

// An hour of a direction.
#[derive(Clone, Copy)]
struct DirectionHour {
    direction: u8,
    hour: Hour,
    ghost inside: { InDirection direction hour.0 },
}

// What the search for a shortage found, and how many values of left it compared.
#[derive(Clone, Copy, PartialEq, Eq)]
pub struct Searched {
    pub found: Option<(Hour, CapacityOf)>,
    pub compared: u32,
}

fn profile_count(book: &Book) -> u8
    ensures count { result ≡ counted book.now PROFILES profile_limit }
    ensures few { result ≤ profile_limit }
{
    cells::PROFILES.count(book) as u8
}

// ---- the search

// Less is left at a place than is asked.
fn is_short(book: &Book, at: Place, asked: u16) -> bool
    ensures { result ≡ nat_lt (left_at (book_of book.now) at.row at.hour.0) asked }
{
    tables::left_at(book, at) < asked as u32
}

impl DirectionHour {
    // The direction itself has less left.
    fn is_short(self, book: &Book, asked: u16) -> bool
        ensures { result ≡ nat_lt (left_at (book_of book.now) self.direction self.hour.0) asked }
    {
        let at = Place {
            row: self.direction,
            hour: self.hour,
        };
        is_short(book, at, asked)
    }

    // Its place in a profile that holds the direction. By the profile's number: granting stores in the book that a slice of rows would borrow.
    fn in_profile(self, book: &Book, profile: u8) -> Option<Place>
        requires { profile < profile_limit }
        ensures { InProfile book.now self.direction self.hour profile result }
    {
        let map = book[cells::PROFILES.row(profile as u32)];
        if !rules::has_bit(map, self.direction as u32) {
            return None;
        }
        Some(Place {
            row: cells::PROFILE_ROW + profile,
            hour: self.hour,
        })
    }
}

impl SessionHours {
    // Their MW up to the last above 0.
    fn to_last_asked(self, mw: &[u16; 5]) -> &[u16]
        ensures searched { result.now ≡ to_last_asked (take self.count mw.now) }
        ensures few { length result.now ≤ self.count }
    {
        let mw = &mw[..self.count as usize];
        match mw.iter().rposition(|asked| *asked > 0) {
            Some(last) => &mw[..=last],
            None => &mw[..0],
        }
    }
}

// The first hour that is short, and in it the direction before the profiles, the lowest profile first.
// Labelled loops: document 01 names them for this search.
pub fn shortage(book: &Book, hours: SessionHours, mw: [u16; 5]) -> Searched
    ensures found { as_shortage result.found ≡ shortage (book_of book.now) hours.direction hours.first.0 (take hours.count mw) }
    ensures count { result.compared ≡ compared (book_of book.now) hours.direction hours.first.0 (take hours.count mw) }
    ensures few { result.compared ≤ 45 }
{
    let profiles = profile_count(book);
    let mut found = None;
    let mut compared = 0;
    'hours: for (k, asked) in hours.to_last_asked(&mw).iter().enumerate() {
        let hour = Hour(hours.first.0 + k as u8);
        let at = DirectionHour {
            direction: hours.direction,
            hour,
        };
        compared += 1;
        if at.is_short(book, *asked) {
            found = Some((hour, CapacityOf::Direction));
            break 'hours;
        }
        for profile in 0..profiles {
            if let Some(place) = at.in_profile(book, profile) {
                compared += 1;
                if is_short(book, place, *asked) {
                    found = Some((hour, CapacityOf::Profile(profile)));
                    break 'hours;
                }
            }
        }
    }
    Searched { found, compared }
}

// A MW above `most` is among those from number `from` on.
pub fn any_above(most: u16, mw: [u16; 5], from: u8) -> bool
    ensures { result ≡ any_above most (drop from mw) }
{
    mw.iter().skip(from as usize).any(|asked| *asked > most)
}

// The time or a MW of a bid or a nomination is out of range.
pub fn out_of_range(time: u32, mw: [u16; 5]) -> bool
    ensures { result ≡ (nat_lt latest time || any_above 9999 mw) }
{
    time > rules::LATEST || any_above(rules::MOST_MW, mw, 0)
}

// ---- granting

// MW more in one cell.
fn add(book: &mut Book, at: usize, mw: u16)
    requires { at < CELLS }
    ensures { book.new ≡ added_cell at mw book.old }
{
    book[at] = book[at].wrapping_add(mw as u32);
}

impl DirectionHour {
    // MW of a profile, where it holds the direction.
    #[tactic(auto, unfolding(stores::specs::Bids::granted_profile))]
    fn grant_profile(self, book: &mut Book, profile: u8, mw: u16)
        requires { profile < profile_limit }
        ensures { book.new ≡ granted_profile self.direction self.hour.0 mw profile book.old }
    {
        if let Some(at) = self.in_profile(book, profile) {
            add(book, cells::GRANTED_MW + at.position(), mw);
        }
    }

    // MW of the direction, and of each of the first profiles that holds it, by its number as in `in_profile`.
    fn grant(self, book: &mut Book, profiles: u8, mw: u16)
        requires { profiles ≤ profile_limit }
        ensures { book.new ≡ granted_hour profiles self.direction self.hour.0 mw book.old }
    {
        let at = Place {
            row: self.direction,
            hour: self.hour,
        };
        add(book, cells::GRANTED_MW + at.position(), mw);
        for p in 0..profiles {
            self.grant_profile(book, p, mw);
        }
    }
}

// The MW of each hour, on the direction and on each profile that holds it.
pub fn grant_hours(book: &mut Book, hours: SessionHours, mw: [u16; 5])
    ensures { book.new ≡ granted_hours (counted book.old PROFILES profile_limit) hours.direction hours.first.0 hours.count mw book.old }
{
    let profiles = profile_count(book);
    for (k, asked) in mw[..hours.count as usize].iter().enumerate() {
        let at = DirectionHour {
            direction: hours.direction,
            hour: Hour(hours.first.0 + k as u8),
        };
        at.grant(book, profiles, *asked);
    }
}

// The five MW of a right with those of a bid, from cell `at` on.
// The position places the cell: a `zip` of the cells and the MW was tried, and its proof didn't close.
pub fn add_five(book: &mut Book, at: usize, mw: [u16; 5])
    requires { at + 5 ≤ CELLS }
    ensures { book.new ≡ added_five at mw book.old }
{
    for (k, more) in mw.iter().enumerate() {
        add(book, at + k, *more);
    }
}
