// Where a time stands to the windows of bids, nominations, offers and matchings: one function for each. No public function has a `requires`: each answers for any numbers, as the rules do.
#![tactic(auto)]

ghost use Rattle.std.specs.Prelude.{◌≡◌, ◌+◌, ◌*◌};
ghost use Rattle.rules.specs.Sessions.{first_hour};
ghost use Rattle.rules.specs.Windows.{timing, gate_hour, opens, held, bid_timing, nomination_timing, offer_timing, matching_timing};

use day::{Day, DaySession};
use rules::{Hour, Timing};

const OFFERS_OPEN: u32 = 960;

const HOLD_BEGINS: u32 = 1170;

const HOLD_ENDS: u32 = 1290;

// The gates of hour 0: those of a later hour are 60 minutes an hour later.
const BIDS_CLOSE: u16 = 1230;

const NOMINATIONS_CLOSE: u16 = 1290;

const MATCHING_OPENS: u16 = 1335;

// What the gates of a session go by: the weekday, the model and its first hour, numbers as `DaySession` has them.
#[derive(Clone, Copy)]
struct Gates {
    weekday: u32,
    model: u32,
    hour: u16,
}

impl From<DaySession> for Gates {
    ghost from_gives = { λ session gates. gates ≡ record { weekday = session.day.weekday; model = session.model; hour = first_hour session.day.hours session.model session.session.0 } };

    fn from(session: DaySession) -> Gates {
        Gates {
            weekday: session.day.weekday,
            model: session.model,
            hour: session.first_number(),
        }
    }
}

#[tactic(auto, using(std::proofs::lemmas::Bool::Decides::nat_tests), unfolding(rules::specs::Windows::gate_hour, rules::specs::Windows::opens))]
impl Gates {
    // The hour whose gates hold: on a Tuesday the one-hour sessions after 21 take those of 21.
    fn gate_hour(self) -> u16
        ensures { result ≡ gate_hour self.weekday self.model self.hour }
    {
        if self.weekday == 2 && self.model == 1 && 21 < self.hour {
            21
        } else {
            self.hour
        }
    }

    // The gate that is at `minute` for hour 0.
    fn gate(self, minute: u16) -> u32
        ensures { result ≡ minute + 60 * gate_hour self.weekday self.model self.hour }
    {
        minute as u32 + 60 * self.gate_hour() as u32
    }

    // When bids and nominations open.
    fn opens(self) -> u32
        ensures { result ≡ opens self.model self.hour }
    {
        if self.model == 1 {
            1080
        } else {
            1020 + 60 * self.hour as u32
        }
    }

    // The window of bids or nominations, which close at `minute` for hour 0.
    fn timing(self, minute: u16, time: u32) -> Timing
        ensures { result ≡ timing (opens self.model self.hour) (minute + 60 * gate_hour self.weekday self.model self.hour) time }
    {
        window_timing(self.opens(), self.gate(minute), time)
    }
}

// A window holds the minute at which it opens and not the one at which it closes.
#[tactic(auto, using(std::proofs::lemmas::Bool::Decides::nat_tests), unfolding(rules::specs::Windows::timing))]
fn window_timing(opening: u32, closing: u32, time: u32) -> Timing
    ensures { result ≡ timing opening closing time }
{
    if time < opening {
        Timing::Early
    } else if time < closing {
        Timing::Within
    } else {
        Timing::Late
    }
}

// The hold on the bids of a Wednesday book.
#[tactic(auto, using(std::proofs::lemmas::Bool::Decides::nat_tests), unfolding(rules::specs::Windows::held))]
fn is_held(weekday: u32, time: u32) -> bool
    ensures { result ≡ held weekday time }
{
    weekday == 3 && HOLD_BEGINS <= time && time < HOLD_ENDS
}

// A bid in the hold is early.
#[tactic(auto, unfolding(rules::specs::Windows::bid_timing, rules::specs::Windows::bids_close))]
pub fn bid_timing(session: DaySession, time: u32) -> Timing
    ensures { result ≡ bid_timing session.day.hours session.day.weekday session.model session.session.0 time }
{
    if is_held(session.day.weekday, time) {
        Timing::Early
    } else {
        Gates::from(session).timing(BIDS_CLOSE, time)
    }
}

#[tactic(auto, unfolding(rules::specs::Windows::nomination_timing, rules::specs::Windows::nominations_close))]
pub fn nomination_timing(session: DaySession, time: u32) -> Timing
    ensures { result ≡ nomination_timing session.day.hours session.day.weekday session.model session.session.0 time }
{
    Gates::from(session).timing(NOMINATIONS_CLOSE, time)
}

// Offers close with the bids of the session that holds the hour.
#[tactic(auto, unfolding(rules::specs::Windows::offer_timing, rules::specs::Windows::bids_close))]
pub fn offer_timing(day: Day, model: u32, hour: Hour, time: u32) -> Timing
    ensures { result ≡ offer_timing day.hours day.weekday model hour.0 time }
{
    let session = day.session(model, day.session_of(model, hour));
    window_timing(OFFERS_OPEN, Gates::from(session).gate(BIDS_CLOSE), time)
}

// A matching is never late.
#[tactic(auto, using(std::proofs::lemmas::Bool::Decides::nat_tests), unfolding(rules::specs::Windows::matching_timing, rules::specs::Windows::matching_opens))]
pub fn matching_timing(session: DaySession, time: u32) -> Timing
    ensures { result ≡ matching_timing session.day.hours session.day.weekday session.model session.session.0 time }
{
    if time < Gates::from(session).gate(MATCHING_OPENS) {
        Timing::Early
    } else {
        Timing::Within
    }
}
