// The windows of each session on a Monday, a Tuesday and a Wednesday.
use super::{HOURS_OF_DAYS, MODELS, Model, Place};
use cases_printing::{Report, Weekday};
use rules::{Hour, Session, Timing};
use std::{fmt, io};

const WEEKDAYS: [Weekday; 3] = [Weekday::Monday, Weekday::Tuesday, Weekday::Wednesday];

// The Wednesday hold of bids.
const HOLD_BEGINS: u32 = 1170;

const HOLD_ENDS: u32 = 1290;

// What a window is of. Offers are for the session's first hour, or for its last hour or, in the one-hour model, for a profile.
#[derive(Clone, Copy, PartialEq)]
enum Calls {
    Bids,
    BidsAboutHold,
    Nominations,
    Matching,
    FirstOffers,
    LastOffers,
}

const CALLS: [Calls; 6] = [
    Calls::Bids,
    Calls::BidsAboutHold,
    Calls::Nominations,
    Calls::Matching,
    Calls::FirstOffers,
    Calls::LastOffers,
];

// A window holds the minute at which it opens and not the one at which it closes. It is tried at four minutes.
#[derive(Clone, Copy)]
struct Window {
    opens: u32,
    closes: u32,
    minutes: [u32; 4],
}

// The minutes about two others.
fn about(from: u32, to: u32) -> [u32; 4] {
    [from.saturating_sub(1), from, to.saturating_sub(1), to]
}

// A window that is tried about its opening and its close.
fn about_gates(opens: u32, closes: u32) -> Window {
    Window {
        opens,
        closes,
        minutes: about(opens, closes),
    }
}

// A session's window on a weekday.
#[derive(Clone, Copy)]
struct Case {
    weekday: Weekday,
    place: Place,
    calls: Calls,
}

impl Case {
    // By the first hour of the session. On a Tuesday the one-hour sessions after 21 have the gates of 21.
    fn gate(self) -> u16 {
        let first = self.place.first();
        if self.weekday == Weekday::Tuesday && self.place.model == Model::OneHour {
            return first.min(21);
        }
        first
    }

    fn window(self) -> Window {
        let shift = 60 * self.gate() as u32;
        let opens = match self.place.model {
            Model::OneHour => 1080,
            Model::FourHours => 1020 + shift,
        };
        let bids = about_gates(opens, 1230 + shift);
        match self.calls {
            Calls::Bids => bids,
            Calls::BidsAboutHold => Window {
                minutes: about(HOLD_BEGINS, HOLD_ENDS),
                ..bids
            },
            Calls::Nominations => about_gates(opens, 1290 + shift),
            // A matching has no end: minute 3000 is past the last one.
            Calls::Matching => Window {
                opens: 1335 + shift,
                closes: 3000,
                minutes: about(1335 + shift, 2999),
            },
            Calls::FirstOffers | Calls::LastOffers => about_gates(960, bids.closes),
        }
    }

    // Bids are held on a Wednesday.
    fn is_held(self, minute: u32) -> bool {
        let bids = self.calls == Calls::Bids || self.calls == Calls::BidsAboutHold;
        let in_hold = HOLD_BEGINS <= minute && minute < HOLD_ENDS;
        self.weekday == Weekday::Wednesday && bids && in_hold
    }

    // A bid in the hold is early.
    fn expected(self, minute: u32) -> Timing {
        let window = self.window();
        if minute < window.opens || self.is_held(minute) {
            return Timing::Early;
        }
        if minute < window.closes {
            return Timing::Within;
        }
        Timing::Late
    }

    // The hour that an offer is for.
    fn hour(self) -> u16 {
        if self.calls == Calls::LastOffers {
            return self.place.last();
        }
        self.place.first()
    }

    fn found(self, minute: u32) -> Timing {
        let session = self.place.session_on(self.weekday as u32);
        match self.calls {
            Calls::Bids | Calls::BidsAboutHold => windows::bid_timing(session, minute),
            Calls::Nominations => windows::nomination_timing(session, minute),
            Calls::Matching => windows::matching_timing(session, minute),
            Calls::FirstOffers | Calls::LastOffers => {
                let hour = Hour((self.hour() % 256) as u8);
                windows::offer_timing(session.day, session.model, hour, minute)
            }
        }
    }

    fn is_as_expected(self) -> bool {
        let minutes = self.window().minutes;
        minutes
            .iter()
            .all(|minute| self.found(*minute) == self.expected(*minute))
    }

    fn name(self) -> &'static str {
        match self.calls {
            Calls::Bids | Calls::BidsAboutHold => "bids",
            Calls::Nominations => "nominations",
            Calls::Matching => "matching",
            Calls::LastOffers if self.place.model == Model::OneHour => "offers for a profile",
            Calls::FirstOffers | Calls::LastOffers => "offers",
        }
    }
}

impl fmt::Display for Case {
    fn fmt<W: fmt::Write>(&self, f: &mut fmt::Formatter<W>) -> fmt::Result {
        let weekday = self.weekday;
        let place = self.place;
        write!(
            f,
            "{weekday:?} {place}, hour {}, {}",
            self.hour(),
            self.name()
        )
    }
}

// The number of the refusal that is due, if any.
fn word_of(timing: Timing) -> &'static str {
    match timing {
        Timing::Early => "16",
        Timing::Within => "in",
        Timing::Late => "8",
    }
}

// Each minute with what was found, and a comma.
#[derive(Clone, Copy)]
struct Found(Case);

impl fmt::Display for Found {
    fn fmt<W: fmt::Write>(&self, f: &mut fmt::Formatter<W>) -> fmt::Result {
        for minute in self.0.window().minutes {
            write!(f, "{minute} {}, ", word_of(self.0.found(minute)))?;
        }
        Ok(())
    }
}

// What is expected at each minute, with a space before it.
#[derive(Clone, Copy)]
struct Expected(Case);

impl fmt::Display for Expected {
    fn fmt<W: fmt::Write>(&self, f: &mut fmt::Formatter<W>) -> fmt::Result {
        for minute in self.0.window().minutes {
            write!(f, " {}", word_of(self.0.expected(minute)))?;
        }
        Ok(())
    }
}

// ---- cases

fn window_case(report: &mut Report<impl Print>, case: Case) -> io::Result<()> {
    print!(report.rt; "{case}: {}expected{}", Found(case), Expected(case))?;
    report.end(case.is_as_expected())
}

// The hold is tried on Wednesdays alone.
fn window_cases(report: &mut Report<impl Print>, weekday: Weekday, place: Place) -> io::Result<()> {
    for calls in CALLS {
        if calls == Calls::BidsAboutHold && weekday != Weekday::Wednesday {
            continue;
        }
        window_case(
            report,
            Case {
                weekday,
                place,
                calls,
            },
        )?;
    }
    Ok(())
}

fn model_cases(
    report: &mut Report<impl Print>,
    weekday: Weekday,
    hours: u8,
    model: Model,
) -> io::Result<()> {
    for session in 1..=super::session_count(hours, model) {
        let place = Place {
            hours,
            model,
            session,
        };
        window_cases(report, weekday, place)?;
    }
    Ok(())
}

fn day_cases(report: &mut Report<impl Print>, weekday: Weekday, hours: u8) -> io::Result<()> {
    for model in MODELS {
        model_cases(report, weekday, hours, model)?;
    }
    Ok(())
}

fn weekday_cases(report: &mut Report<impl Print>, weekday: Weekday) -> io::Result<()> {
    if weekday == Weekday::Tuesday {
        println!(report.rt; "Tuesday 23 hours: there is no such day")?;
        println!(report.rt; "Tuesday 25 hours: there is no such day")?;
        return day_cases(report, weekday, 24);
    }
    for hours in HOURS_OF_DAYS {
        day_cases(report, weekday, hours)?;
    }
    Ok(())
}

pub fn run(report: &mut Report<impl Print>) -> io::Result<()> {
    for weekday in WEEKDAYS {
        weekday_cases(report, weekday)?;
    }
    Ok(())
}
