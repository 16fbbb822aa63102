// Dates of the years 2000 to 2399: whether one is there, its weekday, and how many hours it has. Each answer takes constant time.
#![tactic(auto)]

mod sundays;

ghost use Rattle.std.specs.Prelude.{◌-◌, ◌≤◌, ◌≡◌, if◌then◌else◌};
ghost use Rattle.rules.specs.Calendar.{leap, days_in, is_date, days_of_years, days_of_months, weekday_of, last_sunday, hours_of};

// A date by its numbers, whatever they are: not every date is there.
#[derive(Clone, Copy, PartialEq, Eq)]
pub struct Date {
    pub year: u16,
    pub month: u8,
    pub day: u8,
}

impl Date {
    #[tactic(auto, using(std::proofs::lemmas::Bool::Decides::nat_tests), unfolding(rules::specs::Calendar::is_date, rules::specs::Basics::between))]
    pub fn is_there(self) -> bool
        ensures { result ≡ is_date self.year self.month self.day }
    {
        (2000..=2399).contains(&self.year)
            && (1..=12).contains(&self.month)
            && (1..=days_in(self.year, self.month)).contains(&self.day)
    }

    // Monday 1 to Sunday 7, of a date that is there: a number, as the cells and the rules have it.
    #[tactic(auto, using(crate::proofs::Dates::there), unfolding(rules::specs::Calendar::weekday_of, rules::specs::Calendar::days_since))]
    pub fn weekday(self) -> Option<u8>
        ensures { result ≡ (if is_date self.year self.month self.day then Some (weekday_of self.year self.month self.day) else None) }
    {
        if !self.is_there() {
            return None;
        }
        let days = days_of_years(self.year)
            + days_of_months(self.year, self.month)
            + (self.day as u32 - 1);
        Some((1 + (5 + days) % 7) as u8)
    }

    // 23, 24 or 25, of a date that is there, by the table.
    #[tactic(auto, using(std::proofs::lemmas::Bool::Decides::nat_tests, crate::proofs::Dates::there), unfolding(rules::specs::Calendar::hours_of))]
    pub fn hours(self) -> Option<u8>
        ensures { result ≡ (if is_date self.year self.month self.day then Some (hours_of self.year self.month self.day) else None) }
    {
        if !self.is_there() {
            return None;
        }
        let (march, october) = last_sundays(self.year);
        match self.month {
            3 if self.day == march => Some(23),
            10 if self.day == october => Some(25),
            _ => Some(24),
        }
    }
}

// ---- months and years

#[tactic(auto, using(std::proofs::lemmas::Bool::Decides::nat_tests), unfolding(rules::specs::Calendar::leap))]
fn is_leap(year: u16) -> bool
    ensures { result ≡ leap year }
{
    year % 4 == 0 && (year % 100 != 0 || year % 400 == 0)
}

#[tactic(auto, using(std::proofs::lemmas::Bool::Decides::nat_tests), unfolding(rules::specs::Calendar::days_in))]
fn days_in(year: u16, month: u8) -> u8
    ensures { result ≡ days_in year month }
{
    match month {
        2 if is_leap(year) => 29,
        2 => 28,
        4 | 6 | 9 | 11 => 30,
        _ => 31,
    }
}

// The days from 1 January 2000 to the year's first: a leap year in every fourth, none in a full century, but one in 2000.
#[tactic(auto, using(crate::proofs::Days::years_closed))]
fn days_of_years(year: u16) -> u32
    requires { (2000 ≤ year) × (year ≤ 2399) }
    ensures { (result ≡ days_of_years (year - 2000)) × (result ≤ 146097) }
{
    let years = (year - 2000) as u32;
    365 * years + (years + 3) / 4 + (years + 399) / 400 - (years + 99) / 100
}

// The days from the year's first to the month's: those of a year whose February has 30, without the one or two that it lacks.
#[tactic(auto, using(std::proofs::lemmas::Bool::Decides::nat_tests, crate::proofs::Days::months_closed))]
fn days_of_months(year: u16, month: u8) -> u32
    requires { (1 ≤ month) × (month ≤ 12) }
    ensures { (result ≡ days_of_months year (month - 1)) × (result ≤ 335) }
{
    let days = (367 * month as u32 - 362) / 12;
    if month <= 2 {
        return days;
    }
    if is_leap(year) {
        return days - 1;
    }
    days - 2
}

// The days of March and October on which the clock changes.
fn last_sundays(year: u16) -> (u8, u8)
    requires { (2000 ≤ year) × (year ≤ 2399) }
    ensures { (result.0 ≡ last_sunday year 3) × (result.1 ≡ last_sunday year 10) }
{
    let table = sundays::sundays();
    let march = 2 * (year - 2000) as usize;
    (table[march], table[march + 1])
}
