// One call record on a book: the call that it makes, and the book that the program `dayrun` opens.
#![tactic(auto)]

ghost use Rattle.std.specs.Prelude.{◌≡◌};
ghost use Rattle.cells.specs.View.{book_of};
ghost use Rattle.dayrun_records.specs.Records.{start_book, AnswersRecord, Takes};

use cells::Book;
use rules::{Answer, CallRecord, Refusal};

// The answer to a record that was read, and the record's length.
#[derive(Clone, Copy)]
pub struct Taken {
    pub answer: Answer,
    pub length: usize,
}

// 1 June 2015, a Monday, with direction 0 and party 0. The answers aren't looked at: the contract says which book the three calls make.
pub fn open_book(book: &mut Book)
    ensures { book_of book.new ≡ start_book }
{
    let _ = daybook::open_day(book, 2015, 6, 1);
    let _ = daybook::add_direction(book, 0, 4, 1);
    let _ = daybook::add_party(book, *b"10XCZ-CEPS-GRIDE", 1);
}

// Makes the call of a record, by its kind; a record of no kind is refused. The kind is any byte (see `CallRecord`): an enum would be made from it for just
// this match.
fn answer_record(book: &mut Book, call: CallRecord) -> Answer
    ensures { AnswersRecord book.old call result book.new }
{
    let time = call.time as u32;
    let mw = call.mw;
    match call.kind {
        1 => daybook::offer_direction(book, time, call.direction, call.hour, mw[0]),
        2 => daybook::offer_profile(book, time, call.profile, call.hour, mw[0]),
        3 => daybook::bid(book, time, call.party, call.direction, call.session, mw),
        4 => daybook::nominate(
            book, time, call.party, call.other, call.right, call.side, mw,
        ),
        5 => daybook::match_session(book, time, call.direction, call.session),
        _ => Err(Refusal::Record),
    }
}

// Reads the record at the front of the bytes, and makes its call; or answers why it can't be read.
pub fn take_record(book: &mut Book, bytes: &[u8]) -> Result<Taken, Refusal>
    ensures { Takes book.old bytes.now result book.new }
{
    let read = record::read(bytes)?;
    Ok(Taken {
        answer: answer_record(book, read.call),
        length: read.length,
    })
}
