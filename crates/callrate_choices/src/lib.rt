// The bids and pairs of the loads of `callrate`, each chosen by its number.
#![tactic(auto)]

use answers::Capacity;
use bids::BidCall;
use nomination_tests::NominationCall;
use rules::Session;

// The bids of a load.
#[derive(Clone, Copy)]
pub enum Bids {
    Mixed,
    Standing,
    Full,
    OneHour,
    FirstHour,
}

// ---- mixed bids: eighty in each minute of the four-hour sessions' windows, one window after the other

// The last window's first bid. Before it new rights are rare, so that the 512 suffice for the standing ones.
const LAST_WINDOW: u32 = 84000;

// A bid that adds to a right of parties 0 to 3. A window has 210 minutes and opens 240 after the one before.
fn usual_bid(i: u32) -> BidCall {
    let window = i / 16800 % 6;
    let small = (1 + i % 9) as u16;
    BidCall {
        time: 1080 + 240 * window + i / 80 % 210,
        party: (i / 12 % 4) as u8,
        direction: (12 + i % 12) as u8,
        session: Session((1 + window) as u8),
        mw: [small, 10 - small, small, 10 - small, 0],
    }
}

// A bid of the other parties. Half of them are for one hour: the one-hour sessions 21 to 24 take bids in all of the six windows.
fn new_right_bid(mut bid: BidCall, i: u32) -> BidCall {
    if i < LAST_WINDOW && i % 500 != 40 {
        return bid;
    }
    bid.party = (4 + i % 60) as u8;
    if i / 50 % 2 == 0 {
        bid.direction = (i / 100 % 12) as u8;
        bid.session = Session((21 + i / 100 % 4) as u8);
        bid.mw = [1, 0, 0, 0, 0];
    }
    bid
}

// Of fifty bids 38 are usual and four are of the other parties. The others are too early for the next session or, in the last window, too
// late for the first; or name what is not there, or have no MW, a fifth hour, or more MW than are left.
fn mixed_bid(i: u32) -> BidCall {
    let mut bid = usual_bid(i);
    match i % 50 {
        0..=37 => {}
        38..=41 => return new_right_bid(bid, i),
        42 | 43 => bid.session = Session(1 + bid.session.0 % 6),
        44 => bid.party = 64,
        45 => bid.direction = 24,
        46 => bid.session = Session(7),
        47 => bid.mw = [0; 5],
        48 => bid.mw = [1; 5],
        _ => bid.mw = [9999, 9999, 9999, 9999, 0],
    }
    bid
}

// ---- bids in the last four-hour session

// A minute of the last four-hour session's window, at which rights are bid for and nominated and offers are cut.
pub const LATE: u32 = 2300;

fn late_bid(party: u32, direction: u32, mw: [u16; 5]) -> BidCall {
    BidCall {
        time: LATE,
        party: (party % 64) as u8,
        direction: (direction % 24) as u8,
        session: Session(6),
        mw,
    }
}

// 1 MW in one of four hours.
fn one_mw(hour: u32) -> [u16; 5] {
    let mut mw = [0u16; 5];
    mw[(hour % 4) as usize] = 1;
    mw
}

// 1 MW on a direction with one-hour sessions, of which the last four take bids at `LATE` too. Each such bid opens a right.
fn one_hour_bid(i: u32) -> BidCall {
    BidCall {
        session: Session((21 + i / 12 % 4) as u8),
        ..late_bid(i, i % 12, one_mw(0))
    }
}

// The rights that a load finds.
#[derive(Clone, Copy)]
pub enum Rights {
    Five,
    Full,
}

impl Rights {
    pub fn count(self) -> u32 {
        match self {
            Rights::Five => 5,
            Rights::Full => 512,
        }
    }

    // Of 512 rights, right r is party r / 8's on direction r % 8. Five are all party 63's, right r on direction r.
    pub fn bid(self, r: u32) -> BidCall {
        match self {
            Rights::Five => late_bid(63, r, [500, 500, 500, 500, 0]),
            Rights::Full => late_bid(r / 8, r % 8, [10, 10, 10, 10, 0]),
        }
    }

    // Five rights have 127 pairs each until there are 512, and 512 rights one each.
    pub fn pair(self, p: u32) -> Pair {
        match self {
            Rights::Five => few_pair(p),
            Rights::Full => many_pair(p),
        }
    }
}

// Standing bids are for the last 64 of 512 rights. Bids at a full table would need one more. Bids with MW in a session's first hour alone are one party's,
// so that they add to 12 rights.
pub fn bid_of(bids: Bids, i: u32) -> BidCall {
    match bids {
        Bids::Mixed => mixed_bid(i),
        Bids::Standing => late_bid(56 + i / 8 % 8, i % 8, one_mw(i / 64)),
        Bids::Full => late_bid(i, 8, [1, 1, 1, 1, 0]),
        Bids::OneHour => one_hour_bid(i),
        Bids::FirstHour => late_bid(0, 12 + i % 12, one_mw(0)),
    }
}

// ---- pairs and nominations

// In the numbers that the calls of `daybook` take. In `pairs::PairKey` they are cells, and each call would cast them back.
#[derive(Clone, Copy)]
pub struct Pair {
    pub right: u16,
    pub out: u8,
    pub into: u8,
}

// 127 pairs are the most that a right can have, since one of the two is its holder.
fn few_pair(p: u32) -> Pair {
    let right = (p / 127 % 5) as u16;
    let k = (p % 127) as u8;
    if k < 64 {
        return Pair {
            right,
            out: 63,
            into: k,
        };
    }
    Pair {
        right,
        out: k - 64,
        into: 63,
    }
}

fn many_pair(p: u32) -> Pair {
    let holder = (p / 8 % 64) as u8;
    Pair {
        right: (p % 512) as u16,
        out: holder,
        into: 63 - holder,
    }
}

// The number of a pair: all 512, but not in a row.
pub fn shuffled(i: u32) -> u32 {
    i % 512 * 37 % 512
}

fn mw_of(i: u32) -> [u16; 5] {
    let small = (1 + i % 9) as u16;
    [small, 10 - small, small + 5, 15 - small, 0]
}

// All out sides, then all in sides, and so on.
pub fn nomination_of(pair: Pair, i: u32) -> NominationCall {
    let (sender, other, side) = if i / 512 % 2 == 0 {
        (pair.out, pair.into, 0)
    } else {
        (pair.into, pair.out, 1)
    };
    NominationCall {
        time: LATE,
        sender,
        other,
        right: pair.right,
        side,
        mw: mw_of(i),
    }
}

// ---- what is offered

pub const OFFERED_COUNT: u32 = 32;

// The directions and then the profiles, over and over.
pub fn offered_at(k: u32) -> Capacity {
    let row = (k % OFFERED_COUNT) as u8;
    if row < 24 {
        return Capacity::Direction(row);
    }
    Capacity::Profile(row - 24)
}
