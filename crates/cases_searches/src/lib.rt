// The search for a shortage: what it finds, and how many values of left it compares.
#![tactic(auto)]

mod books;
mod calls;

use books::Search;
use calls::Call;
use capacity::Searched;
use cases_printing::Report;
use cells::Book;
use rules::CapacityOf;
use std::{fmt, io};

// MW for five hours, with a space before each.
#[derive(Clone, Copy)]
struct HourlyMw([u16; 5]);

impl fmt::Display for HourlyMw {
    fn fmt<W: fmt::Write>(&self, f: &mut fmt::Formatter<W>) -> fmt::Result {
        for mw in self.0 {
            write!(f, " {mw}")?;
        }
        Ok(())
    }
}

impl fmt::Display for Search {
    fn fmt<W: fmt::Write>(&self, f: &mut fmt::Formatter<W>) -> fmt::Result {
        let hours = self.hours;
        let first = hours.first.0;
        write!(f, "direction {}, ", hours.direction)?;
        if hours.count == 1 {
            write!(f, "hour {first}")?;
        } else {
            write!(f, "hours {first} to {}", first + hours.count - 1)?;
        }
        write!(f, ":{}", HourlyMw(self.mw))
    }
}

// A search's result as it is printed.
#[derive(Clone, Copy, PartialEq)]
struct Outcome(Searched);

impl fmt::Display for Outcome {
    fn fmt<W: fmt::Write>(&self, f: &mut fmt::Formatter<W>) -> fmt::Result {
        let Searched { found, compared } = self.0;
        match found {
            None => f.write_str("nothing short")?,
            Some((hour, CapacityOf::Direction)) => write!(f, "hour {}, direction", hour.0)?,
            Some((hour, CapacityOf::Profile(profile))) => {
                write!(f, "hour {}, profile {profile}", hour.0)?
            }
        }
        write!(f, ", {compared} compared")
    }
}

// ---- cases

fn verdict(granted: bool) -> &'static str {
    if granted { "granted" } else { "refused" }
}

fn call_case(report: &mut Report<impl Print>, book: &mut Book, call: Call) -> io::Result<()> {
    let answer = calls::answer_to(book, call);
    print!(report.rt; "{call}: ")?;
    report.compare(&verdict(answer.is_ok()), &verdict(true))
}

fn call_cases(report: &mut Report<impl Print>, book: &mut Book, calls: &[Call]) -> io::Result<()> {
    for call in calls {
        call_case(report, book, *call)?;
    }
    Ok(())
}

fn search_case(report: &mut Report<impl Print>, book: &Book, search: Search) -> io::Result<()> {
    let searched = capacity::shortage(book, search.hours, search.mw);
    let expected = Searched {
        found: search.found,
        compared: search.compared,
    };
    print!(report.rt; "{search} = ")?;
    report.compare(&Outcome(searched), &Outcome(expected))
}

// The calls that make a book, then the searches on it.
fn book_cases(
    report: &mut Report<impl Print>,
    calls: &[Call],
    searches: &[Search],
) -> io::Result<()> {
    let mut book = [0u32; cells::CELLS];
    call_cases(report, &mut book, calls)?;
    for search in searches {
        search_case(report, &book, *search)?;
    }
    Ok(())
}

pub fn run(report: &mut Report<impl Print>) -> io::Result<()> {
    book_cases(
        report,
        &books::NO_PROFILE_CALLS,
        &books::NO_PROFILE_SEARCHES,
    )?;
    book_cases(
        report,
        &books::THREE_PROFILES_CALLS,
        &books::THREE_PROFILES_SEARCHES,
    )?;
    book_cases(
        report,
        &books::SHORTFALLS_CALLS,
        &books::SHORTFALLS_SEARCHES,
    )?;
    book_cases(
        report,
        &books::EIGHT_PROFILES_CALLS,
        &books::EIGHT_PROFILES_SEARCHES,
    )?;
    book_cases(report, &books::SHORT_DAY_CALLS, &books::SHORT_DAY_SEARCHES)
}
