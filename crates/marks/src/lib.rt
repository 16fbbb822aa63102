// The marks of a nomination: the hours in which a side's total under a right is above the right.
#![tactic(auto)]

ghost use Rattle.std.specs.Prelude.{◌≡◌, if◌then◌else◌, ◌≤◌, nat_lt};
ghost use Rattle.rules.specs.Nominations.{side_of};
ghost use Rattle.rules.specs.Sides.{side_number};
ghost use Rattle.cells.specs.View.{pair_read, book_of};
ghost use Rattle.marks.specs.Totals.{totals_of, marks_of};

use cells::Book;
use rules::Side;

// The five MW of one side of a pair. They stand written out: with `from_fn`, which proves, the load `nominate-few` takes more instructions than
// plain Rust (680 million against 600), and as they stand fewer (docs/SPEED.md).
#[tactic(auto, unfolding(cells::specs::View::part, cells::specs::View::cell_from, cells::specs::Loops::rows))]
fn side_mw(row: &[u32; 13], side: Side) -> [u32; 5]
    ensures { result ≡ side_of (side_number side) (pair_read row.now) }
{
    match side {
        Side::Out => [row[3], row[4], row[5], row[6], row[7]],
        Side::In => [row[8], row[9], row[10], row[11], row[12]],
    }
}

// A side's totals over all pairs of a right, in the five hours of the session.
// Beside `totals::sums_of`: document 01 has the lower sides lent as a list, and here nothing is gathered.
fn side_totals(book: &Book, right: u32, side: Side) -> [u64; 5]
    ensures { result ≡ totals_of right (side_number side) (book_of book.now).pairs }
{
    let mut sums = [0; 5];
    for row in cells::pairs(book) {
        if row[0] == right {
            // By `next`, as in `totals`.
            let next = totals::plus(sums, side_mw(row, side));
            sums = next;
        }
    }
    sums
}

// The bit of an hour: its total is above the MW of the right.
fn mark(held: u32, total: u64) -> u32
    ensures bit { result ≡ (if nat_lt held total then 1 else 0) }
    ensures small { result ≤ 1 }
{
    ((held as u64) < total) as u32
}

// Bit 0 marks the first hour; the right has `held`. The last hour comes first, and each that follows moves it a bit up.
pub fn marks(book: &Book, right: u16, held: [u32; 5], side: Side) -> u32
    ensures { result ≡ marks_of held right (side_number side) (book_of book.now).pairs }
{
    let totals = side_totals(book, right as u32, side);
    held.iter()
        .rev()
        .zip(totals.iter().rev())
        .fold(0, |bits, (held, total)| bits << 1 | mark(*held, *total))
}
