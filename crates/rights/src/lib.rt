// The table of rights: the standing right of a holder, direction and session, and new rights.
#![tactic(auto)]

ghost use Rattle.std.specs.Prelude.{◌≡◌, ◌<◌};
ghost use Rattle.rules.specs.Book.{right_limit};
ghost use Rattle.cells.specs.Layout.{RIGHTS};
ghost use Rattle.cells.specs.View.{counted};
ghost use Rattle.rights.specs.Work.{standing_right, right_for, entry_in, Enters, NewRight, Booked};

use cells::Book;
use rules::Refusal;
use tables::RightKey;

// ---- the standing right

// The first right with the key. Beside `pairs::standing_pair`: one search would need a trait for the keys, with its laws, to save two lines.
fn standing(book: &Book, key: RightKey) -> Option<u32>
    ensures { result ≡ standing_right book.now key }
{
    let rows = cells::rights(book);
    let number = rows.iter().position(|row| RightKey::of_row(row) == key)?;
    Some(number as u32)
}

// The right that a bid asks for: what tells it from others, and the model of its direction (a number, as in `tables::Direction`), which a row doesn't have.
#[derive(Clone, Copy)]
pub struct RightOfBid {
    pub model: u32,
    pub key: RightKey,
}

impl RightOfBid {
    // The right that takes the MW: none in the one-hour model.
    #[tactic(auto, using(std::proofs::lemmas::Bool::Decides::nat_tests), unfolding(crate::specs::Work::right_for))]
    fn standing(self, book: &Book) -> Option<u32>
        ensures { result ≡ right_for book.now self }
    {
        if self.model == 1 {
            return None;
        }
        standing(book, self.key)
    }

    // What a bid finds in the table: `Ok(None)` where there is room for a right more, `Ok(Some)` with the right that takes its MW where there is none, and
    // `Err` where there is neither. A table with room isn't searched: the bid may still be short.
    pub fn entry(self, book: &Book) -> Result<Option<u32>, Refusal>
        ensures { result ≡ entry_in book.now self }
    {
        if !cells::RIGHTS.is_full(book) {
            return Ok(None);
        }
        let right = self.standing(book).ok_or(Refusal::Full)?;
        Ok(Some(right))
    }

    // The right that takes the MW: as the verdict found it, or searched now where the table has room.
    fn by_entry(self, book: &Book, entry: Option<u32>) -> Option<u32>
        requires { Enters book.now self entry }
        ensures { result ≡ right_for book.now self }
    {
        entry.or_else(|| self.standing(book))
    }

    // The right of a granted bid: the standing one takes its MW, or else a new one does.
    pub fn take_mw(self, book: &mut Book, entry: Option<u32>, mw: [u16; 5]) -> u32
        requires { Enters book.old self entry }
        ensures { Booked book.old self mw result book.new }
    {
        let Some(i) = self.by_entry(book, entry) else {
            return open_right(book, self.key, mw);
        };
        capacity::add_five(book, cells::RIGHTS.row(i) + 3, mw);
        i
    }
}

// A new right with the MW of a bid: its number. No value carries that the table has room: it is a fact of the cells as they are before the store.
fn open_right(book: &mut Book, key: RightKey, mw: [u16; 5]) -> u32
    requires { counted book.old RIGHTS right_limit < right_limit }
    ensures { NewRight book.old key mw result book.new }
{
    let [first, second, third, fourth, fifth] = mw.map(u32::from);
    let row = [
        key.holder as u32,
        key.direction as u32,
        key.session.0 as u32,
        first,
        second,
        third,
        fourth,
        fifth,
    ];
    stores::place_row(book, &cells::RIGHTS, &row)
}
