// Replies in words.
ghost use Rattle.std.specs.Prelude.{◌≡◌};
ghost use Rattle.rehearse_text.specs.Rows.{numbers_in};
ghost use Rattle.rehearse_words.specs.Words.{weekday_text, marked_hours};

use answers::{LeftRead, RightRead};
use day::Day;
use rehearse_lines::CallKind;
use rehearse_reads::Reply;
use rehearse_text::Numbers;
use rules::{CapacityOf, Hour, Refusal, has_bit};
use std::fmt;

// ---- what is granted

// By its number, as the cells have it: they may hold any.
fn weekday_of(number: u32) -> &'static str
    ensures { result.now ≡ weekday_text number }
{
    match number {
        1 => "Monday",
        2 => "Tuesday",
        3 => "Wednesday",
        4 => "Thursday",
        5 => "Friday",
        6 => "Saturday",
        7 => "Sunday",
        _ => "",
    }
}

#[derive(Clone, Copy)]
struct Opened(Day);

impl fmt::Display for Opened {
    ghost use Rattle.std.specs.Prelude.{Some};
    ghost use Rattle.rehearse_words.specs.Words.{opened_text};

    ghost output = { λ opened. Some (opened_text opened.0) };

    fn fmt<W: fmt::Write>(&self, f: &mut fmt::Formatter<W>) -> fmt::Result {
        let weekday = weekday_of(self.0.weekday);
        let hours = self.0.hours;
        write!(f, "granted: {weekday}, {hours} hours")
    }
}

// The hours of the session, from 1, whose marks stand. Over all five: a `filter` of them was tried, and the proof didn't close.
fn hours_of(marks: u32) -> Numbers
    ensures { numbers_in result ≡ marked_hours marks }
{
    let mut hours = Numbers::default();
    for hour in 0..5u32 {
        if has_bit(marks, hour) {
            hours.add(u64::from(hour) + 1);
        }
    }
    hours
}

// A nomination, by its marks: it is granted above the right too, which is said of each such hour.
#[derive(Clone, Copy)]
struct Nominated(u32);

impl fmt::Display for Nominated {
    ghost use Rattle.std.specs.Prelude.{Some};
    ghost use Rattle.rehearse_words.specs.Words.{nominated_text, marked_hours};

    ghost output = { λ nominated. Some (nominated_text (marked_hours nominated.0)) };

    fn fmt<W: fmt::Write>(&self, f: &mut fmt::Formatter<W>) -> fmt::Result {
        let hours = hours_of(self.0);
        match hours.count() {
            0 => f.write_str("granted"),
            1 => write!(f, "granted: above the right in hour {hours} of the session"),
            _ => write!(
                f,
                "granted: above the right in hours {hours} of the session"
            ),
        }
    }
}

// A call, by its kind and detail.
#[derive(Clone, Copy)]
struct Granted(CallKind, u32);

impl fmt::Display for Granted {
    ghost use Rattle.std.specs.Prelude.{Some};
    ghost use Rattle.rehearse_words.specs.Words.{granted_text};

    ghost output = { λ granted. Some (granted_text granted.0 granted.1) };

    fn fmt<W: fmt::Write>(&self, f: &mut fmt::Formatter<W>) -> fmt::Result {
        let Granted(kind, detail) = *self;
        match kind {
            CallKind::Direction => write!(f, "granted: direction {detail}"),
            CallKind::Profile => write!(f, "granted: profile {detail}"),
            CallKind::Party(_) => write!(f, "granted: party {detail}"),
            CallKind::Offer(_) => write!(f, "granted: {detail} MW left"),
            CallKind::Bid => write!(f, "granted: right {detail}"),
            CallKind::Nominate => write!(f, "{}", Nominated(detail)),
            CallKind::Match if detail == 1 => f.write_str("granted: 1 right"),
            CallKind::Match => write!(f, "granted: {detail} rights"),
        }
    }
}

// ---- what is read

#[derive(Clone, Copy)]
struct Left(LeftRead);

impl fmt::Display for Left {
    ghost use Rattle.std.specs.Prelude.{Some};
    ghost use Rattle.rehearse_words.specs.Words.{left_text};

    ghost output = { λ left. Some (left_text left.0) };

    fn fmt<W: fmt::Write>(&self, f: &mut fmt::Formatter<W>) -> fmt::Result {
        let LeftRead { left, shortfall } = self.0;
        write!(f, "{left} MW left")?;
        if shortfall != 0 {
            write!(f, ", shortfall {shortfall} MW")?;
        }
        Ok(())
    }
}

fn row_of(mw: [u32; 5]) -> Numbers
    ensures { numbers_in result ≡ mw }
{
    Numbers::from(mw.map(u64::from))
}

#[derive(Clone, Copy)]
struct Right(RightRead);

impl fmt::Display for Right {
    ghost use Rattle.std.specs.Prelude.{Some};
    ghost use Rattle.rehearse_words.specs.Words.{right_text};

    ghost output = { λ right. Some (right_text right.0) };

    fn fmt<W: fmt::Write>(&self, f: &mut fmt::Formatter<W>) -> fmt::Result {
        let holder = self.0.holder;
        let direction = self.0.direction;
        let session = self.0.session.0;
        let mw = row_of(self.0.mw);
        write!(
            f,
            "party {holder}, direction {direction}, session {session}, {mw} MW"
        )
    }
}

#[derive(Clone, Copy)]
struct Confirmed([u32; 5]);

impl fmt::Display for Confirmed {
    ghost use Rattle.std.specs.Prelude.{Some};
    ghost use Rattle.rehearse_words.specs.Words.{confirmed_text};

    ghost output = { λ confirmed. Some (confirmed_text confirmed.0) };

    fn fmt<W: fmt::Write>(&self, f: &mut fmt::Formatter<W>) -> fmt::Result {
        let mw = row_of(self.0);
        write!(f, "{mw} MW confirmed")
    }
}

// ---- what is refused

#[derive(Clone, Copy)]
struct Short(Hour, CapacityOf);

impl fmt::Display for Short {
    ghost use Rattle.std.specs.Prelude.{Some};
    ghost use Rattle.rehearse_words.specs.Words.{short_text};

    ghost output = { λ short. Some (short_text short.0.0 short.1) };

    fn fmt<W: fmt::Write>(&self, f: &mut fmt::Formatter<W>) -> fmt::Result {
        let hour = self.0.0;
        match self.1 {
            CapacityOf::Direction => write!(f, "short: hour {hour}, direction"),
            CapacityOf::Profile(profile) => write!(f, "short: hour {hour}, profile {profile}"),
        }
    }
}

#[derive(Clone, Copy)]
struct Refused(Refusal);

impl fmt::Display for Refused {
    ghost use Rattle.std.specs.Prelude.{Some};
    ghost use Rattle.rehearse_words.specs.Words.{refused_text};

    ghost output = { λ refused. Some (refused_text refused.0) };

    fn fmt<W: fmt::Write>(&self, f: &mut fmt::Formatter<W>) -> fmt::Result {
        f.write_str(match self.0 {
            Refusal::Record => "record",
            Refusal::Date => "date",
            Refusal::Field => "field",
            Refusal::SetupShut => "set-up shut",
            Refusal::Clock => "clock",
            Refusal::Unknown => "unknown",
            Refusal::Taken => "taken",
            Refusal::TooEarly => "too early",
            Refusal::TooLate => "too late",
            Refusal::Hours => "hours",
            Refusal::Access => "access",
            Refusal::Owner => "owner",
            Refusal::Cycle => "cycle",
            Refusal::Full => "full",
            Refusal::Short(hour, capacity) => return write!(f, "{}", Short(hour, capacity)),
        })
    }
}

// ---- the whole reply

#[derive(Clone, Copy)]
pub struct InWords(pub Reply);

impl fmt::Display for InWords {
    ghost use Rattle.std.specs.Prelude.{Some};
    ghost use Rattle.rehearse_words.specs.Words.{reply_text};

    ghost output = { λ words. Some (reply_text words.0) };

    fn fmt<W: fmt::Write>(&self, f: &mut fmt::Formatter<W>) -> fmt::Result {
        match self.0 {
            Reply::Opening(Ok((_, day))) => write!(f, "{}", Opened(day)),
            Reply::Call(kind, Ok(detail)) => write!(f, "{}", Granted(kind, detail)),
            Reply::Left(Ok(read)) => write!(f, "{}", Left(read)),
            Reply::Right(Ok(read)) => write!(f, "{}", Right(read)),
            Reply::Confirmed(Ok(mw)) => write!(f, "{}", Confirmed(mw)),
            Reply::Opening(Err(refusal))
            | Reply::Call(_, Err(refusal))
            | Reply::Left(Err(refusal))
            | Reply::Right(Err(refusal))
            | Reply::Confirmed(Err(refusal)) => write!(f, "{}", Refused(refusal)),
        }
    }
}
