// The day's sessions and hours. No method has a `requires`: each answers for any numbers, as the rules do.
#![tactic(auto)]

ghost use Rattle.std.specs.Prelude.{◌≡◌, true, ◌↔◌, IfSome, IsSome, if◌then◌else◌, ◌+◌, ◌-◌, ◌≤◌, ◌==◌};
ghost use Rattle.rules.specs.Sessions.{session_there, first_hour, hours_in, session_of, first_hour_there};

use rules::{Hour, Session};

// A day's count of hours and its weekday, Monday 1 to Sunday 7. The weekday is a number: the cell may hold any, and an enum would be turned back in each clause.
#[derive(Clone, Copy)]
pub struct Day {
    pub hours: u8,
    pub weekday: u32,
}

// A session of a day by the model, 1 or 4, and its number. The model is a number: the cell may hold any, and an enum would be turned back in each clause.
#[derive(Clone, Copy)]
pub struct DaySession {
    pub day: Day,
    pub model: u32,
    pub session: Session,
}

#[tactic(auto, using(std::proofs::lemmas::Bool::Decides::nat_tests), unfolding(rules::specs::Sessions::session_of))]
impl Day {
    pub fn session(self, model: u32, session: Session) -> DaySession
        ensures { result ≡ record { day = self; model = model; session = session } }
    {
        DaySession {
            day: self,
            model,
            session,
        }
    }

    // The number of the session that holds an hour.
    pub fn session_of(self, model: u32, hour: Hour) -> Session
        ensures { result.0 ≡ session_of self.hours model hour.0 }
    {
        let first = self.hours_in_first();
        if model == 1 {
            Session(hour.0)
        } else if hour.0 <= first {
            Session(1)
        } else {
            Session(2 + (hour.0 - first - 1) / 4)
        }
    }

    // How many hours the first session of the four-hour model has: four on a day of 24.
    fn hours_in_first(self) -> u8
        ensures { result ≡ 4 + self.hours - 24 }
    {
        self.hours.saturating_sub(20)
    }
}

#[tactic(auto, using(std::proofs::lemmas::Bool::Decides::nat_tests), unfolding(rules::specs::Sessions::session_there, rules::specs::Sessions::first_hour, rules::specs::Sessions::first_hour_there, rules::specs::Sessions::hours_in))]
impl DaySession {
    // The number of the day's last session.
    fn last_number(self) -> u8
        ensures { result ≡ (if self.model == 1 then self.day.hours else 6) }
    {
        if self.model == 1 { self.day.hours } else { 6 }
    }

    pub fn is_there(self) -> bool
        ensures { result ≡ session_there self.day.hours self.model self.session.0 }
    {
        0 < self.session.0 && self.session.0 <= self.last_number()
    }

    // The first hour of any session's number, there or not: it may be past what an `Hour` holds.
    pub fn first_number(self) -> u16
        ensures number { result ≡ first_hour self.day.hours self.model self.session.0 }
        ensures most { result ≤ 1248 }
    {
        let number = self.session.0 as u16;
        if self.model == 1 {
            number
        } else if number <= 1 {
            1
        } else {
            (1 + 4 * (number - 1) + self.day.hours as u16).saturating_sub(24)
        }
    }

    pub fn first_hour(self) -> Option<Hour>
        ensures there { IsSome result ↔ (session_there self.day.hours self.model self.session.0 ≡ true) }
        ensures hour { IfSome result (λ hour. hour.0 ≡ first_hour_there self.day.hours self.model self.session.0) }
    {
        self.is_there().then(|| Hour(self.first_number() as u8))
    }

    // How many hours the session has.
    pub fn hours(self) -> u8
        ensures { result ≡ hours_in self.day.hours self.model self.session.0 }
    {
        if self.model == 1 {
            1
        } else if self.session.0 <= 1 {
            self.day.hours_in_first()
        } else {
            4
        }
    }
}
