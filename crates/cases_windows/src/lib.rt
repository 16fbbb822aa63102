// The sessions of both models on days of 23, 24 and 25 hours, and every window at the minutes about its gates, on Mondays, Tuesdays and
// Wednesdays: whether a call is too early, in or too late.
#![tactic(auto)]

mod gates;
mod sessions;

use cases_printing::Report;
use day::{Day, DaySession};
use rules::Session;
use std::{fmt, io};

// The number is what the calls take.
#[derive(Clone, Copy, PartialEq)]
enum Model {
    OneHour = 1,
    FourHours = 4,
}

const MODELS: [Model; 2] = [Model::OneHour, Model::FourHours];

const HOURS_OF_DAYS: [u8; 3] = [23, 24, 25];

// A session of a day, which need not be there.
#[derive(Clone, Copy)]
struct Place {
    hours: u8,
    model: Model,
    session: u8,
}

impl Place {
    fn day(self, weekday: u32) -> Day {
        Day {
            hours: self.hours,
            weekday,
        }
    }

    fn session_on(self, weekday: u32) -> DaySession {
        self.day(weekday)
            .session(self.model as u32, Session(self.session))
    }

    // The last hour. The first four-hour session has an hour less on a day of 23 hours and one more on a day of 25.
    fn last(self) -> u16 {
        let session = self.session as u16;
        match self.model {
            Model::OneHour => session,
            Model::FourHours => (4 * session + self.hours as u16).saturating_sub(24),
        }
    }

    fn first(self) -> u16 {
        if self.model == Model::OneHour || self.session < 2 {
            return self.session as u16;
        }
        self.last().saturating_sub(3)
    }
}

impl fmt::Display for Place {
    fn fmt<W: fmt::Write>(&self, f: &mut fmt::Formatter<W>) -> fmt::Result {
        let model = self.model as u8;
        write!(
            f,
            "{} hours, {model}-hour session {}",
            self.hours, self.session
        )
    }
}

// How many sessions a model has on a day.
fn session_count(hours: u8, model: Model) -> u8 {
    match model {
        Model::OneHour => hours,
        Model::FourHours => 6,
    }
}

pub fn run(report: &mut Report<impl Print>) -> io::Result<()> {
    sessions::run(report)?;
    gates::run(report)
}
