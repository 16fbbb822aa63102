// The calls that make the books.
use super::HourlyMw;
use answers::Capacity;
use cells::Book;
use rules::{Answer, Hour, Session};
use std::fmt;

// The time of each offer and bid: within the windows of hour 1 and of those after it.
const TIME: u32 = 1100;

// A call, or an offer for each of the hours 1 to 5, with the numbers that differ between the books. Time, party and session are the same in all.
#[derive(Clone, Copy)]
pub enum Call {
    // A month and a day of 2015.
    OpenDay(u8, u8),
    // From an operator to another, in a model.
    Direction(u8, u8, u8),
    // A map of directions.
    Profile(u32),
    Party,
    // MW offered to a direction or a profile, in each of the hours 1 to 5.
    Offers(Capacity, [u16; 5]),
    // MW for each hour of session 1 of direction 0.
    Bid([u16; 5]),
}

impl fmt::Display for Call {
    fn fmt<W: fmt::Write>(&self, f: &mut fmt::Formatter<W>) -> fmt::Result {
        match *self {
            Call::OpenDay(month, day) => write!(f, "2015-{month:02}-{day:02}"),
            Call::Direction(out, into, model) => {
                write!(f, "direction {out} to {into}, model {model}")
            }
            Call::Profile(map) => write!(f, "profile of map {map}"),
            Call::Party => f.write_str("entry of party 10XCZ-CEPS-GRIDE, access 17"),
            Call::Offers(Capacity::Direction(direction), mw) => write!(
                f,
                "offers at {TIME} for direction {direction}, hours 1 to 5:{}",
                HourlyMw(mw)
            ),
            Call::Offers(Capacity::Profile(profile), mw) => write!(
                f,
                "offers at {TIME} for profile {profile}, hours 1 to 5:{}",
                HourlyMw(mw)
            ),
            Call::Bid(mw) => write!(
                f,
                "bid at {TIME} by party 0 on direction 0, session 1:{}",
                HourlyMw(mw)
            ),
        }
    }
}

fn offer(book: &mut Book, capacity: Capacity, hour: Hour, mw: u16) -> Answer {
    match capacity {
        Capacity::Direction(direction) => {
            daybook::offer_direction(book, TIME, direction, hour, mw)
        }
        Capacity::Profile(profile) => daybook::offer_profile(book, TIME, profile, hour, mw),
    }
}

// The answer of the last offer, or of the first that is refused.
fn offer_hours(book: &mut Book, capacity: Capacity, mw: [u16; 5]) -> Answer {
    let mut left = 0;
    for (hour, offered) in (1..=5).zip(mw) {
        left = offer(book, capacity, Hour(hour), offered)?;
    }
    Ok(left)
}

pub fn answer_to(book: &mut Book, call: Call) -> Answer {
    match call {
        Call::OpenDay(month, day) => daybook::open_day(book, 2015, month, day),
        Call::Direction(out, into, model) => daybook::add_direction(book, out, into, model),
        Call::Profile(map) => daybook::add_profile(book, map),
        Call::Party => daybook::add_party(book, *b"10XCZ-CEPS-GRIDE", 17),
        Call::Offers(capacity, mw) => offer_hours(book, capacity, mw),
        Call::Bid(mw) => daybook::bid(book, TIME, 0, 0, Session(1), mw),
    }
}
