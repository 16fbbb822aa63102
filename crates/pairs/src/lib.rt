// The table of pairs: the search for a pair, new pairs, and the MW of a side.
#![tactic(auto)]

ghost use Rattle.std.specs.Prelude.{◌≡◌, ◌+◌, ◌*◌, ◌<◌, ◌≤◌};
ghost use Rattle.std.proofs.lemmas.List.Edits.{sets};
ghost use Rattle.rules.specs.Book.{pair_limit};
ghost use Rattle.rules.specs.Sides.{side_number};
ghost use Rattle.cells.specs.Layout.{CELLS, PAIRS};
ghost use Rattle.cells.specs.View.{counted, pair_read};
ghost use Rattle.pairs.specs.Search.{standing_pair};
ghost use Rattle.pairs.specs.Work.{entry_in, Enters, NewPair, PairThere};

use cells::Book;
use rules::{Refusal, Side};

// What tells a pair from others: its right, out party and in party.
#[derive(Clone, Copy, PartialEq, Eq)]
pub struct PairKey {
    pub right: u32,
    pub out: u32,
    pub into: u32,
}

impl PairKey {
    // By the first cells of a pair's row. Not `From`, since the row has more than the key.
    fn of_row(row: &[u32; 13]) -> Self
        ensures right { result.right ≡ (pair_read row.now).right }
        ensures out { result.out ≡ (pair_read row.now).out }
        ensures into { result.into ≡ (pair_read row.now).into }
    {
        PairKey {
            right: row[0],
            out: row[1],
            into: row[2],
        }
    }
}

// ---- the search

// The first pair with the key. Beside `rights::standing`: one search would need a trait for the keys, with its laws, to save two lines.
pub fn standing_pair(book: &Book, key: PairKey) -> Option<u32>
    ensures { result ≡ standing_pair book.now key }
{
    let rows = cells::pairs(book);
    let number = rows.iter().position(|row| PairKey::of_row(row) == key)?;
    Some(number as u32)
}

// What a nomination finds in the table: `Ok(Some)` with its pair, `Ok(None)` where there is room for a new one, and `Err` where there is neither.
#[tactic(auto, unfolding(crate::specs::Work::entry_in))]
pub fn entry_of(book: &Book, key: PairKey) -> Result<Option<u32>, Refusal>
    ensures { result ≡ entry_in book.now key }
{
    let found = standing_pair(book, key);
    if found.is_none() && cells::PAIRS.is_full(book) {
        return Err(Refusal::Full);
    }
    Ok(found)
}

// ---- the pair of a granted nomination

// A new pair with no MW: its number. No value carries that the table has room: it is a fact of the cells as they are before the store.
fn open_pair(book: &mut Book, key: PairKey) -> u32
    requires { counted book.old PAIRS pair_limit < pair_limit }
    ensures { NewPair book.old key result book.new }
{
    let row = [key.right, key.out, key.into, 0, 0, 0, 0, 0, 0, 0, 0, 0, 0];
    stores::place_row(book, &cells::PAIRS, &row)
}

// The number of the pair that the verdict found, or of a new one.
pub fn take_pair(book: &mut Book, key: PairKey, found: Option<u32>) -> u32
    requires { Enters book.old key found }
    ensures { PairThere book.old key result book.new }
{
    let Some(number) = found else {
        return open_pair(book, key);
    };
    number
}

// ---- the MW of a side

// Where the five MW of one side of a pair stand.
fn side_at(pair: u32, side: Side) -> usize
    requires { pair < pair_limit }
    ensures begins { result ≡ PAIRS + 4 + pair * 13 + 5 * side_number side }
    ensures inside { result + 5 ≤ CELLS }
{
    let row = cells::PAIRS.row(pair);
    match side {
        Side::Out => row + 3,
        Side::In => row + 8,
    }
}

// MW of 16 bits as cells of 32.
fn cells_of(mw: [u16; 5]) -> [u32; 5]
    ensures { result ≡ mw }
{
    mw.map(u32::from)
}

// The five MW of one side of a pair.
#[tactic(auto, using(rules::proofs::Stores::copied))]
pub fn write_side(book: &mut Book, pair: u32, side: Side, mw: [u16; 5])
    requires { pair < pair_limit }
    ensures { book.new ≡ sets book.old (PAIRS + 4 + pair * 13 + 5 * side_number side) mw }
{
    let at = side_at(pair, side);
    let cells = cells_of(mw);
    book[at..at + cells.len()].copy_from_slice(&cells);
}
