// The sessions of each day and their hours.
use super::{HOURS_OF_DAYS, MODELS, Model, Place};
use cases_printing::Report;
use rules::Hour;
use std::{fmt, io};

// How many hours a session has, and the first of them.
#[derive(Clone, Copy, PartialEq)]
struct Span {
    count: u16,
    first: u16,
}

// None where the session is not there.
#[derive(Clone, Copy, PartialEq)]
struct Hours(Option<Span>);

impl fmt::Display for Hours {
    fn fmt<W: fmt::Write>(&self, f: &mut fmt::Formatter<W>) -> fmt::Result {
        match self.0 {
            Some(span) => write!(f, "{} hours from {}", span.count, span.first),
            None => f.write_str("0 hours from 0"),
        }
    }
}

// ---- what the day says

// The weekday plays no part here.
fn session_of(place: Place, hour: u8) -> u8 {
    let day = place.day(0);
    day.session_of(place.model as u32, Hour(hour)).0
}

fn hours_of(place: Place) -> Hours {
    let session = place.session_on(0);
    Hours(
        session.first_hour().map(|first| Span {
            count: session.hours() as u16,
            first: first.0 as u16,
        }),
    )
}

// ---- cases

fn session_case(report: &mut Report<impl Print>, place: Place, expected: Hours) -> io::Result<()> {
    print!(report.rt; "{place}: ")?;
    report.compare(&hours_of(place), &expected)
}

fn hour_case(report: &mut Report<impl Print>, place: Place, hour: u16) -> io::Result<()> {
    print!(report.rt; "{place}, hour {hour}: in session ")?;
    report.compare(&session_of(place, (hour % 256) as u8), &place.session)
}

// The session and each of its hours.
fn hour_cases(report: &mut Report<impl Print>, place: Place) -> io::Result<()> {
    let first = place.first();
    let last = place.last();
    let count = last.saturating_add(1).saturating_sub(first);
    session_case(report, place, Hours(Some(Span { count, first })))?;
    for hour in first..=last {
        hour_case(report, place, hour)?;
    }
    Ok(())
}

// Each session of a model, then the absent ones before the first and past the last.
fn model_cases(report: &mut Report<impl Print>, hours: u8, model: Model) -> io::Result<()> {
    let sessions = super::session_count(hours, model);
    for session in 1..=sessions {
        hour_cases(
            report,
            Place {
                hours,
                model,
                session,
            },
        )?;
    }
    for session in [0, sessions.saturating_add(1)] {
        session_case(
            report,
            Place {
                hours,
                model,
                session,
            },
            Hours(None),
        )?;
    }
    Ok(())
}

fn day_cases(report: &mut Report<impl Print>, hours: u8) -> io::Result<()> {
    for model in MODELS {
        model_cases(report, hours, model)?;
    }
    Ok(())
}

pub fn run(report: &mut Report<impl Print>) -> io::Result<()> {
    for hours in HOURS_OF_DAYS {
        day_cases(report, hours)?;
    }
    Ok(())
}
