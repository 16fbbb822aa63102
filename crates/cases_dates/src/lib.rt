// The calendar: which dates are there, their weekdays and their hours. What is expected is typed, or counted on from a typed weekday; the
// changes of the clock are those of the published lists.
#![tactic(auto)]

use cases_printing::{NoWeekday, Report, Weekday};
use std::{fmt, io};

// There need be no such date.
#[derive(Clone, Copy)]
struct Date(calendar::Date);

impl Date {
    fn new(year: u16, month: u8, day: u8) -> Self {
        Date(calendar::Date { year, month, day })
    }
}

impl fmt::Display for Date {
    fn fmt<W: fmt::Write>(&self, f: &mut fmt::Formatter<W>) -> fmt::Result {
        let date = self.0;
        write!(f, "{}-{:02}-{:02}", date.year, date.month, date.day)
    }
}

// What the calendar says of a date: whether it is there, its weekday and its hours.
// A flag and two Options, and no Option of a struct: the calendar answers the three apart, and a contradiction has to show.
#[derive(Clone, Copy, PartialEq, Debug)]
struct Day {
    is_there: bool,
    weekday: Option<Result<Weekday, NoWeekday>>,
    hours: Option<u8>,
}

const NO_SUCH_DATE: Day = Day {
    is_there: false,
    weekday: None,
    hours: None,
};

impl Day {
    fn new(weekday: Weekday, hours: u8) -> Self {
        Day {
            is_there: true,
            weekday: Some(Ok(weekday)),
            hours: Some(hours),
        }
    }
}

impl fmt::Display for Day {
    fn fmt<W: fmt::Write>(&self, f: &mut fmt::Formatter<W>) -> fmt::Result {
        match *self {
            NO_SUCH_DATE => f.write_str("no such date"),
            Day {
                is_there: true,
                weekday: Some(Ok(weekday)),
                hours: Some(hours),
            } => write!(f, "{weekday:?}, {hours} hours"),
            // Parts that contradict one another are never expected.
            day => write!(f, "{day:?}"),
        }
    }
}

// ---- what the calendar says

// The calendar gives a weekday by its number.
fn day_of(date: Date) -> Day {
    Day {
        is_there: date.0.is_there(),
        weekday: date.0.weekday().map(Weekday::try_from),
        hours: date.0.hours(),
    }
}

// ---- cases

fn date_case(report: &mut Report<impl Print>, date: Date, expected: Day) -> io::Result<()> {
    print!(report.rt; "{date}: ")?;
    report.compare(&day_of(date), &expected)
}

// ---- the months of a year

// A year, the weekday of its first day, and the last day of its February.
#[derive(Clone, Copy)]
struct Year {
    number: u16,
    first_weekday: Weekday,
    february: u8,
}

// A common year, a leap year, and 2100, which is a common one.
const YEARS: [Year; 3] = [
    Year {
        number: 2015,
        first_weekday: Weekday::Thursday,
        february: 28,
    },
    Year {
        number: 2016,
        first_weekday: Weekday::Friday,
        february: 29,
    },
    Year {
        number: 2100,
        first_weekday: Weekday::Friday,
        february: 28,
    },
];

// A month, its last day and the days before it, in a common year.
#[derive(Clone, Copy)]
struct Month(u8, u8, u16);

const MONTHS: [Month; 12] = [
    Month(1, 31, 0),
    Month(2, 28, 31),
    Month(3, 31, 59),
    Month(4, 30, 90),
    Month(5, 31, 120),
    Month(6, 30, 151),
    Month(7, 31, 181),
    Month(8, 31, 212),
    Month(9, 30, 243),
    Month(10, 31, 273),
    Month(11, 30, 304),
    Month(12, 31, 334),
];

fn last_day(year: Year, month: Month) -> u8 {
    if month.0 == 2 { year.february } else { month.1 }
}

// Counted on from the weekday of the year's first day.
fn weekday_on(year: Year, month: Month, day: u8) -> Result<Weekday, NoWeekday> {
    let leap_day = year.february == 29 && 2 < month.0;
    let days = month.2 as u32 + leap_day as u32 + day as u32;
    let number = (year.first_weekday as u32 + days + 5) % 7 + 1;
    Weekday::try_from(number as u8)
}

// The last Sunday of March and of October, which have 31 days, is the one after the 24th.
fn hours_on(month: Month, day: u8, weekday: Result<Weekday, NoWeekday>) -> u8 {
    if weekday != Ok(Weekday::Sunday) || day < 25 {
        return 24;
    }
    match month.0 {
        3 => 23,
        10 => 25,
        _ => 24,
    }
}

fn day_case(report: &mut Report<impl Print>, year: Year, month: Month, day: u8) -> io::Result<()> {
    let weekday = weekday_on(year, month, day);
    let expected = Day {
        is_there: true,
        weekday: Some(weekday),
        hours: Some(hours_on(month, day, weekday)),
    };
    date_case(report, Date::new(year.number, month.0, day), expected)
}

// The first day, the last, and the one after it, which is not there.
fn month_cases(report: &mut Report<impl Print>, year: Year, month: Month) -> io::Result<()> {
    let last = last_day(year, month);
    day_case(report, year, month, 1)?;
    day_case(report, year, month, last)?;
    let after = Date::new(year.number, month.0, last.wrapping_add(1));
    date_case(report, after, NO_SUCH_DATE)
}

fn year_cases(report: &mut Report<impl Print>, year: Year) -> io::Result<()> {
    for month in MONTHS {
        month_cases(report, year, month)?;
    }
    Ok(())
}

fn years_cases(report: &mut Report<impl Print>) -> io::Result<()> {
    for year in YEARS {
        year_cases(report, year)?;
    }
    Ok(())
}

// ---- the changes of the clock

// A year and its Sundays in March and in October.
#[derive(Clone, Copy)]
struct Changes(u16, u8, u8);

// As the European Commission published them under Article 4 of Directive 2000/84/EC.
const CHANGES: [Changes; 15] = [
    Changes(2012, 25, 28),
    Changes(2013, 31, 27),
    Changes(2014, 30, 26),
    Changes(2015, 29, 25),
    Changes(2016, 27, 30),
    Changes(2017, 26, 29),
    Changes(2018, 25, 28),
    Changes(2019, 31, 27),
    Changes(2020, 29, 25),
    Changes(2021, 28, 31),
    Changes(2022, 27, 30),
    Changes(2023, 26, 29),
    Changes(2024, 31, 27),
    Changes(2025, 30, 26),
    Changes(2026, 29, 25),
];

// In a month of 31 days.
fn day_after(date: Date) -> Date {
    let calendar::Date { year, month, day } = date.0;
    if day == 31 {
        return Date::new(year, month.wrapping_add(1), 1);
    }
    Date::new(year, month, day.wrapping_add(1))
}

// The Saturday before, the Sunday and the Monday after.
fn change_cases(report: &mut Report<impl Print>, sunday: Date, hours: u8) -> io::Result<()> {
    let calendar::Date { year, month, day } = sunday.0;
    let saturday = Date::new(year, month, day.wrapping_sub(1));
    let monday = day_after(sunday);
    date_case(report, saturday, Day::new(Weekday::Saturday, 24))?;
    date_case(report, sunday, Day::new(Weekday::Sunday, hours))?;
    date_case(report, monday, Day::new(Weekday::Monday, 24))
}

fn clock_cases(report: &mut Report<impl Print>) -> io::Result<()> {
    for Changes(year, march, october) in CHANGES {
        change_cases(report, Date::new(year, 3, march), 23)?;
        change_cases(report, Date::new(year, 10, october), 25)?;
    }
    Ok(())
}

// ---- dates that are not there

// A year, a month and a day: years outside the cycle, then months, then days.
const ABSENT: [(u16, u8, u8); 19] = [
    (0, 1, 1),
    (1999, 1, 1),
    (1999, 12, 31),
    (2400, 1, 1),
    (2400, 2, 29),
    (2400, 12, 31),
    (65535, 12, 31),
    (2015, 0, 1),
    (2015, 13, 1),
    (2015, 255, 1),
    (2000, 1, 0),
    (2000, 2, 30),
    (2015, 6, 0),
    (2015, 6, 32),
    (2015, 6, 255),
    (2200, 2, 29),
    (2300, 2, 29),
    (2399, 12, 32),
    (0, 0, 0),
];

fn absent_cases(report: &mut Report<impl Print>) -> io::Result<()> {
    for (year, month, day) in ABSENT {
        date_case(report, Date::new(year, month, day), NO_SUCH_DATE)?;
    }
    Ok(())
}

// ---- dates that can be looked up

// A year, a month and a day, with the date's weekday and its hours.
#[derive(Clone, Copy)]
struct Known((u16, u8, u8), Weekday, u8);

// The ends of the cycle, leap days and hundreds of years, the days after the years above, Sundays a week before or after a change, and
// the dates that document 02 names.
const KNOWN: [Known; 26] = [
    Known((2000, 1, 1), Weekday::Saturday, 24),
    Known((2000, 2, 28), Weekday::Monday, 24),
    Known((2000, 2, 29), Weekday::Tuesday, 24),
    Known((2000, 3, 1), Weekday::Wednesday, 24),
    Known((2000, 3, 26), Weekday::Sunday, 23),
    Known((2000, 10, 29), Weekday::Sunday, 25),
    Known((2000, 12, 31), Weekday::Sunday, 24),
    Known((2004, 2, 29), Weekday::Sunday, 24),
    Known((2004, 5, 1), Weekday::Saturday, 24),
    Known((2013, 3, 24), Weekday::Sunday, 24),
    Known((2015, 3, 29), Weekday::Sunday, 23),
    Known((2015, 4, 5), Weekday::Sunday, 24),
    Known((2015, 6, 1), Weekday::Monday, 24),
    Known((2015, 6, 4), Weekday::Thursday, 24),
    Known((2015, 11, 1), Weekday::Sunday, 24),
    Known((2017, 1, 1), Weekday::Sunday, 24),
    Known((2021, 10, 24), Weekday::Sunday, 24),
    Known((2038, 1, 19), Weekday::Tuesday, 24),
    Known((2101, 1, 1), Weekday::Saturday, 24),
    Known((2200, 3, 1), Weekday::Saturday, 24),
    Known((2300, 3, 1), Weekday::Thursday, 24),
    Known((2399, 1, 1), Weekday::Friday, 24),
    Known((2399, 2, 28), Weekday::Sunday, 24),
    Known((2399, 3, 28), Weekday::Sunday, 23),
    Known((2399, 10, 31), Weekday::Sunday, 25),
    Known((2399, 12, 31), Weekday::Friday, 24),
];

fn known_cases(report: &mut Report<impl Print>) -> io::Result<()> {
    for Known((year, month, day), weekday, hours) in KNOWN {
        let date = Date::new(year, month, day);
        date_case(report, date, Day::new(weekday, hours))?;
    }
    Ok(())
}

pub fn run(report: &mut Report<impl Print>) -> io::Result<()> {
    years_cases(report)?;
    clock_cases(report)?;
    absent_cases(report)?;
    known_cases(report)
}
