// The books that the loads of `callrate` meet, on Monday 1 June 2015, and the calls that change them.
#![tactic(auto)]

use answers::Capacity;
use bids::BidCall;
use callrate_choices::{Bids, LATE, OFFERED_COUNT, Rights};
use cells::Book;
use nomination_tests::NominationCall;
use offers::OfferCall;
use rules::{Answer, Hour, ReplyNumbers, Session};
use std::ops::Range;

// ---- answers

// How many calls had each answer, by its number, which is below 32; and the sum of all their numbers and details, modulo 2^32.
#[derive(Clone, Copy, Default)]
pub struct Tally {
    pub answers: [u32; 32],
    pub sum: u32,
}

impl Tally {
    fn count(&mut self, answer: Answer) {
        let reply = daybook::numbers(answer);
        let number = (reply.number % 32) as usize;
        self.answers[number] = self.answers[number].wrapping_add(1);
        self.sum = self.sum.wrapping_add(sum_of_numbers(reply));
    }
}

// The number and both details.
fn sum_of_numbers(reply: ReplyNumbers) -> u32 {
    (reply.number as u32)
        .wrapping_add(reply.first)
        .wrapping_add(reply.second)
}

pub fn sum_of(answer: Answer) -> u32 {
    sum_of_numbers(daybook::numbers(answer))
}

// ---- a book and its tally

// A book, and the tally of the calls that are made on it.
#[derive(Drop)]
pub struct TalliedBook<'a> {
    pub book: &'a mut Book,
    pub tally: Tally,
}

impl<'a> TalliedBook<'a> {
    pub fn new(book: &'a mut Book) -> Self {
        TalliedBook {
            book,
            tally: Tally::default(),
        }
    }

    // Directions from each operator to each other one, until there are 24: the first twelve with the model, the others four-hour.
    fn add_directions(&mut self, model: u8) {
        for k in 0..35u8 {
            let model = if k < 14 { model } else { 4 };
            let answer = daybook::add_direction(self.book, k / 7, k % 7, model);
            self.tally.count(answer);
        }
    }

    // Profile p holds the directions p, p + 1, p + 12 and p + 13.
    fn add_profiles(&mut self) {
        for p in 0..8u32 {
            let answer = daybook::add_profile(self.book, 0x3003 << p);
            self.tally.count(answer);
        }
    }

    // Parties have access to all seven operators, until there are 64.
    fn add_parties(&mut self) {
        for number in 0..100 {
            let answer = daybook::add_party(self.book, cases_codes::code_of(number), 127);
            self.tally.count(answer);
        }
    }

    // 9,999 MW in each of some hours, from the last one down.
    fn make_offers(&mut self, hours: u8) {
        for k in 0..OFFERED_COUNT * hours as u32 {
            let chosen = OfferCall {
                time: 1000,
                capacity: callrate_choices::offered_at(k),
                hour: Hour((24 - k / OFFERED_COUNT % 24) as u8),
                mw: 9999,
            };
            let answer = offer(self.book, chosen);
            self.tally.count(answer);
        }
    }

    fn make_numbered_bids(&mut self, bids: Bids, numbers: Range<u32>) {
        for i in numbers {
            let answer = bid(self.book, callrate_choices::bid_of(bids, i));
            self.tally.count(answer);
        }
    }

    // The sum of the answers.
    pub fn make_bids(&mut self, bids: Bids, calls: u32) -> u32 {
        self.make_numbered_bids(bids, 0..calls);
        self.tally.sum
    }

    // Bids in rounds of 512, since there is room for as many rights: each round begins on the book as it was filled. The sum of the answers.
    pub fn make_rounds_of_bids(&mut self, bids: Bids, calls: u32) -> u32 {
        let filled = *self.book;
        for first in (0..calls).step_by(512) {
            *self.book = filled;
            let end = calls.min(first.saturating_add(512));
            self.make_numbered_bids(bids, first..end);
        }
        self.tally.sum
    }
}

// ---- set-up

// A full set-up, and 9,999 MW of each direction and each profile in the last hours of the day. The tally of its calls.
fn set_up(book: &mut Book, model: u8, hours: u8) -> Tally {
    let mut tallied = TalliedBook::new(book);
    let answer = daybook::open_day(tallied.book, 2015, 6, 1);
    tallied.tally.count(answer);
    tallied.add_directions(model);
    tallied.add_profiles();
    tallied.add_parties();
    tallied.make_offers(hours);
    tallied.tally
}

// ---- offers, bids, nominations and matching

fn offer(book: &mut Book, chosen: OfferCall) -> Answer {
    let OfferCall {
        time,
        capacity,
        hour,
        mw,
    } = chosen;
    match capacity {
        Capacity::Direction(direction) => daybook::offer_direction(book, time, direction, hour, mw),
        Capacity::Profile(profile) => daybook::offer_profile(book, time, profile, hour, mw),
    }
}

// Each offer of the last hour is cut to 100 MW, for some rows under what is granted. The answers aren't looked at: what is left afterwards is what counts.
pub fn cut_offers(book: &mut Book) {
    for k in 0..OFFERED_COUNT {
        let cut = OfferCall {
            time: LATE,
            capacity: callrate_choices::offered_at(k),
            hour: Hour(24),
            mw: 100,
        };
        let _ = offer(book, cut);
    }
}

fn bid(book: &mut Book, chosen: BidCall) -> Answer {
    let BidCall {
        time,
        party,
        direction,
        session,
        mw,
    } = chosen;
    daybook::bid(book, time, party, direction, session, mw)
}

// For the load that follows, whose own answers are summed, so that these aren't looked at.
fn fill_rights(book: &mut Book, rights: Rights) {
    for r in 0..rights.count() {
        let _ = bid(book, rights.bid(r));
    }
}

fn nominate(book: &mut Book, rights: Rights, pair: u32, i: u32) -> Answer {
    let NominationCall {
        time,
        sender,
        other,
        right,
        side,
        mw,
    } = callrate_choices::nomination_of(rights.pair(pair), i);
    daybook::nominate(book, time, sender, other, right, side, mw)
}

// All out sides of 512 pairs, then all in sides. The answers aren't looked at, as in `fill_rights`.
fn fill_pairs(book: &mut Book, rights: Rights) {
    for i in 0..1024u32 {
        let _ = nominate(book, rights, i % 512, i);
    }
}

// Nominations that replace a side of one of 512 pairs. The sum of the answers.
pub fn make_nominations(book: &mut Book, rights: Rights, calls: u32) -> u32 {
    fill_pairs(book, rights);
    (0..calls)
        .map(|i| sum_of(nominate(book, rights, callrate_choices::shuffled(i), i)))
        .fold(0, u32::wrapping_add)
}

// 512 pairs that are confirmed. The answers aren't looked at: the reads that follow show what was confirmed.
pub fn match_pairs(book: &mut Book, rights: Rights) {
    fill_pairs(book, rights);
    for direction in 0..8u8 {
        let _ = daybook::match_session(book, 2600, direction, Session(6));
    }
}

// With no rights a set-up of both models; else there are four-hour directions, and the rights in the last session. The tally of the set-up alone.
pub fn fill(book: &mut Book, rights: Option<Rights>) -> Tally {
    match rights {
        None => set_up(book, 1, 24),
        Some(rights) => {
            let tally = set_up(book, 4, 4);
            fill_rights(book, rights);
            tally
        }
    }
}
