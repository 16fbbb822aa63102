// The reads of capacity left, with the shortfall, and of rights. No read has a `requires`: each promise is an equation with the rules, whatever the cells hold.
#![tactic(auto)]

ghost use Rattle.std.specs.Prelude.{◌≡◌};
ghost use Rattle.answers.specs.Promises.{ReadsRight};
ghost use Rattle.reads.specs.Work.{ReadsLeft, left_in};

use answers::{Capacity, LeftRead, RightRead};
use cells::{Book, Place};
use rules::{Hour, Refusal};

// ---- capacity left and shortfall

// The read of a place.
fn left_read(book: &Book, at: Place) -> LeftRead
    ensures { result ≡ left_in book.now at.row at.hour.0 }
{
    LeftRead {
        left: tables::left_at(book, at),
        shortfall: tables::shortfall_at(book, at),
    }
}

// What is left of a direction or a profile in an hour.
pub fn left_of(book: &Book, capacity: Capacity, hour: Hour) -> Result<LeftRead, Refusal>
    ensures { ReadsLeft book.now capacity hour.0 result }
{
    let place = answers::place_in(book, capacity, hour).ok_or(Refusal::Unknown)?;
    Ok(left_read(book, place))
}

// ---- rights

pub fn right_at(book: &Book, right: u16) -> Result<RightRead, Refusal>
    ensures { ReadsRight book.now right result }
{
    answers::right_in(book, right).ok_or(Refusal::Unknown)
}
