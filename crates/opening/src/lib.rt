// The opening of a day by its date. Its promise is an equation with the rules, whatever the cells held.
#![tactic(auto)]

ghost use Rattle.std.specs.Prelude.{◌≡◌};
ghost use Rattle.answers.specs.Promises.{Opens};
ghost use Rattle.opening.specs.Work.{day_there};

use calendar::Date;
use cells::Book;
use day::Day;
use rules::{Answer, Refusal};

// The hours and the weekday of a date that is there.
fn day_of(date: Date) -> Option<Day>
    ensures { result ≡ day_there date }
{
    Some(Day {
        hours: date.hours()?,
        weekday: date.weekday()? as u32,
    })
}

// Refused, it hands back the book of a 24-hour Monday, which has no date.
pub fn open_day(book: &mut Book, year: u16, month: u8, day: u8) -> Answer
    ensures { Opens year month day result book.new }
{
    let date = Date { year, month, day };
    let Some(day) = day_of(date) else {
        let monday = Day {
            hours: 24,
            weekday: 1,
        };
        stores::clear(book, None, monday);
        return Err(Refusal::Date);
    };
    stores::clear(book, Some(date), day);
    Ok(0)
}
