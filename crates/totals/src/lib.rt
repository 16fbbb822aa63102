// The pairs of one right, gathered and lent as a slice of structs, and the sums over it of the lower sides, one for each hour of the session.
#![tactic(auto)]

ghost use Rattle.std.specs.Prelude.{◌≡◌, ◌≤◌, ◌^◌, length};
ghost use Rattle.rules.specs.Basics.{five};
ghost use Rattle.rules.specs.Book.{pair_limit};
ghost use Rattle.totals.specs.Total.{Most, sum_in, totals};
ghost use Rattle.totals.specs.Gathered.{Gathered, lower_in, total_in};

use arrayvec::ArrayVec;
use cells::Book;

// As many pairs as the table of pairs holds at most.
const MOST: usize = 512;

// A pair: the lower of its two sides in each hour of the session. An `ArrayVec` fills its free places with the default.
#[derive(Clone, Copy, Default)]
pub struct PairLower {
    pub lower: [u32; 5],
}

impl PairLower {
    // By the cells of a pair's row. Not `From`, since the row has both sides.
    #[tactic(auto, unfolding(cells::specs::View::part, cells::specs::View::cell_from, cells::specs::Loops::rows))]
    pub fn of_row(row: &[u32; 13]) -> Self
        ensures { result.lower ≡ five (lower_in row.now) }
    {
        let lower = std::array::from_fn(|k| row[3 + k].min(row[8 + k]));
        PairLower { lower }
    }
}

// ---- the sums over a list

// The five sums with five MW more, hour by hour.
pub fn plus(sums: [u64; 5], mw: [u32; 5]) -> [u64; 5]
    requires { Most (2 ^ 63) sums }
    ensures { (result ≡ five (sum_in sums mw)) × Most 4294967295 mw }
{
    std::array::from_fn(|k| sums[k] + mw[k] as u64)
}

// The sums of the lower sides over the pairs.
fn total_lower(list: &[PairLower]) -> [u64; 5]
    requires { length list.now ≤ pair_limit }
    ensures { result ≡ totals list.now }
{
    let mut sums = [0u64; 5];
    for pair in list {
        // By `next`: the check doesn't cover a call's array put straight into a local that holds one.
        let next = plus(sums, pair.lower);
        sums = next;
    }
    sums
}

// ---- the pairs of one right

// The pairs of one right, in the order of the table: the list of records of document 01, lent without a heap.
fn pairs_of(book: &Book, right: u32) -> ArrayVec<PairLower, MOST>
    ensures { Gathered book.now right result.items }
{
    let mut list = ArrayVec::new();
    for row in cells::pairs(book) {
        if row[0] == right {
            list.push(PairLower::of_row(row));
        }
    }
    list
}

// The sums of the lower sides over the pairs of one right.
pub fn sums_of(book: &Book, right: u32) -> [u64; 5]
    ensures { result ≡ five (total_in book.now right) }
{
    let list = pairs_of(book, right);
    total_lower(list.as_slice())
}
