// The books, each with the searches on it.
use super::calls::Call;
use answers::Capacity;
use capacity::SessionHours;
use rules::{CapacityOf, Hour};

// A search: the hours of a direction's session and the MW asked for in them; then what it is to find, and how many values to compare.
#[derive(Clone, Copy)]
pub struct Search {
    pub hours: SessionHours,
    pub mw: [u16; 5],
    pub found: Option<(Hour, CapacityOf)>,
    pub compared: u32,
}

// ---- hours of sessions

const DIRECTION_0_HOURS_1_TO_4: SessionHours = SessionHours {
    direction: 0,
    first: Hour(1),
    count: 4,
};

const DIRECTION_0_HOURS_5_TO_8: SessionHours = SessionHours {
    direction: 0,
    first: Hour(5),
    count: 4,
};

const DIRECTION_1_HOUR_3: SessionHours = SessionHours {
    direction: 1,
    first: Hour(3),
    count: 1,
};

const DIRECTION_1_HOURS_1_TO_4: SessionHours = SessionHours {
    direction: 1,
    first: Hour(1),
    count: 4,
};

const DIRECTION_2_HOUR_1: SessionHours = SessionHours {
    direction: 2,
    first: Hour(1),
    count: 1,
};

const DIRECTION_3_HOURS_1_TO_4: SessionHours = SessionHours {
    direction: 3,
    first: Hour(1),
    count: 4,
};

const DIRECTION_0_HOURS_1_TO_5: SessionHours = SessionHours {
    direction: 0,
    first: Hour(1),
    count: 5,
};

const DIRECTION_0_HOURS_22_TO_25: SessionHours = SessionHours {
    direction: 0,
    first: Hour(22),
    count: 4,
};

const DIRECTION_1_HOUR_5: SessionHours = SessionHours {
    direction: 1,
    first: Hour(5),
    count: 1,
};

const DIRECTION_1_HOUR_25: SessionHours = SessionHours {
    direction: 1,
    first: Hour(25),
    count: 1,
};

const DIRECTION_0_HOURS_1_TO_3: SessionHours = SessionHours {
    direction: 0,
    first: Hour(1),
    count: 3,
};

// ---- no profile

// Direction 0 has four-hour sessions, direction 1 one-hour ones.
pub const NO_PROFILE_CALLS: [Call; 5] = [
    Call::OpenDay(6, 1),
    Call::Direction(0, 4, 4),
    Call::Direction(4, 1, 1),
    Call::Offers(Capacity::Direction(0), [10, 20, 30, 40, 0]),
    Call::Offers(Capacity::Direction(1), [0, 0, 3, 0, 0]),
];

pub const NO_PROFILE_SEARCHES: [Search; 13] = [
    Search {
        hours: DIRECTION_0_HOURS_1_TO_4,
        mw: [10, 0, 5, 0, 0],
        found: None,
        compared: 3,
    },
    Search {
        hours: DIRECTION_0_HOURS_1_TO_4,
        mw: [0, 0, 0, 0, 0],
        found: None,
        compared: 0,
    },
    Search {
        hours: DIRECTION_0_HOURS_1_TO_4,
        mw: [10, 0, 0, 0, 0],
        found: None,
        compared: 1,
    },
    Search {
        hours: DIRECTION_0_HOURS_1_TO_4,
        mw: [0, 0, 0, 40, 0],
        found: None,
        compared: 4,
    },
    // All that is left is not short.
    Search {
        hours: DIRECTION_0_HOURS_1_TO_4,
        mw: [10, 20, 30, 40, 0],
        found: None,
        compared: 4,
    },
    // The session lacks a fifth hour.
    Search {
        hours: DIRECTION_0_HOURS_1_TO_4,
        mw: [0, 0, 0, 0, 7],
        found: None,
        compared: 0,
    },
    Search {
        hours: DIRECTION_0_HOURS_1_TO_4,
        mw: [11, 0, 0, 0, 0],
        found: Some((Hour(1), CapacityOf::Direction)),
        compared: 1,
    },
    Search {
        hours: DIRECTION_0_HOURS_1_TO_4,
        mw: [10, 0, 31, 0, 0],
        found: Some((Hour(3), CapacityOf::Direction)),
        compared: 3,
    },
    // Three hours are short: the first of them is named.
    Search {
        hours: DIRECTION_0_HOURS_1_TO_4,
        mw: [10, 21, 31, 41, 0],
        found: Some((Hour(2), CapacityOf::Direction)),
        compared: 2,
    },
    // Never offered.
    Search {
        hours: DIRECTION_0_HOURS_5_TO_8,
        mw: [0, 0, 1, 0, 0],
        found: Some((Hour(7), CapacityOf::Direction)),
        compared: 3,
    },
    // The session has one hour.
    Search {
        hours: DIRECTION_1_HOUR_3,
        mw: [3, 9, 9, 9, 9],
        found: None,
        compared: 1,
    },
    Search {
        hours: DIRECTION_1_HOUR_3,
        mw: [0, 9, 9, 9, 9],
        found: None,
        compared: 0,
    },
    Search {
        hours: DIRECTION_1_HOUR_3,
        mw: [4, 0, 0, 0, 0],
        found: Some((Hour(3), CapacityOf::Direction)),
        compared: 1,
    },
];

// ---- three profiles

// Profile 0 holds directions 0 and 1, profile 1 directions 1 and 2, profile 2 directions 0 and 2; none holds direction 3. Direction 2 has one-hour
// sessions, the others four-hour ones. Nothing is offered for profile 1.
pub const THREE_PROFILES_CALLS: [Call; 14] = [
    Call::OpenDay(6, 1),
    Call::Direction(0, 4, 4),
    Call::Direction(4, 1, 4),
    Call::Direction(1, 2, 1),
    Call::Direction(2, 3, 4),
    Call::Profile(0b011),
    Call::Profile(0b110),
    Call::Profile(0b101),
    Call::Offers(Capacity::Direction(0), [50, 60, 70, 80, 0]),
    Call::Offers(Capacity::Profile(0), [40, 60, 65, 80, 0]),
    Call::Offers(Capacity::Profile(2), [40, 55, 70, 80, 0]),
    Call::Offers(Capacity::Direction(1), [50, 0, 0, 0, 0]),
    Call::Offers(Capacity::Direction(2), [10, 0, 0, 0, 0]),
    Call::Offers(Capacity::Direction(3), [10, 0, 5, 0, 0]),
];

pub const THREE_PROFILES_SEARCHES: [Search; 14] = [
    Search {
        hours: DIRECTION_0_HOURS_1_TO_4,
        mw: [10, 0, 5, 0, 0],
        found: None,
        compared: 9,
    },
    Search {
        hours: DIRECTION_0_HOURS_1_TO_4,
        mw: [0, 0, 0, 0, 0],
        found: None,
        compared: 0,
    },
    Search {
        hours: DIRECTION_0_HOURS_1_TO_4,
        mw: [40, 0, 0, 0, 0],
        found: None,
        compared: 3,
    },
    Search {
        hours: DIRECTION_0_HOURS_1_TO_4,
        mw: [0, 0, 0, 80, 0],
        found: None,
        compared: 12,
    },
    Search {
        hours: DIRECTION_0_HOURS_1_TO_4,
        mw: [40, 55, 65, 80, 0],
        found: None,
        compared: 12,
    },
    Search {
        hours: DIRECTION_0_HOURS_1_TO_4,
        mw: [51, 0, 0, 0, 0],
        found: Some((Hour(1), CapacityOf::Direction)),
        compared: 1,
    },
    Search {
        hours: DIRECTION_0_HOURS_1_TO_4,
        mw: [40, 61, 0, 0, 0],
        found: Some((Hour(2), CapacityOf::Direction)),
        compared: 4,
    },
    // Profiles 0 and 2 are short: the lower one is named.
    Search {
        hours: DIRECTION_0_HOURS_1_TO_4,
        mw: [41, 0, 0, 0, 0],
        found: Some((Hour(1), CapacityOf::Profile(0))),
        compared: 2,
    },
    // Profile 1 lacks the direction: it is not counted.
    Search {
        hours: DIRECTION_0_HOURS_1_TO_4,
        mw: [0, 56, 0, 0, 0],
        found: Some((Hour(2), CapacityOf::Profile(2))),
        compared: 6,
    },
    Search {
        hours: DIRECTION_0_HOURS_1_TO_4,
        mw: [40, 55, 66, 0, 0],
        found: Some((Hour(3), CapacityOf::Profile(0))),
        compared: 8,
    },
    Search {
        hours: DIRECTION_0_HOURS_1_TO_4,
        mw: [40, 55, 71, 0, 0],
        found: Some((Hour(3), CapacityOf::Direction)),
        compared: 7,
    },
    // A profile that holds the direction and was never offered.
    Search {
        hours: DIRECTION_1_HOURS_1_TO_4,
        mw: [1, 0, 0, 0, 0],
        found: Some((Hour(1), CapacityOf::Profile(1))),
        compared: 3,
    },
    // Profile 0 lacks the direction.
    Search {
        hours: DIRECTION_2_HOUR_1,
        mw: [10, 9, 9, 9, 9],
        found: Some((Hour(1), CapacityOf::Profile(1))),
        compared: 2,
    },
    // No profile holds the direction.
    Search {
        hours: DIRECTION_3_HOURS_1_TO_4,
        mw: [10, 0, 5, 0, 0],
        found: None,
        compared: 3,
    },
];

// ---- shortfalls

// After the bid the offers are cut: profile 0 has a shortfall in hour 1, direction 0 in hour 2.
pub const SHORTFALLS_CALLS: [Call; 10] = [
    Call::OpenDay(6, 1),
    Call::Direction(0, 4, 4),
    Call::Direction(4, 1, 4),
    Call::Profile(0b011),
    Call::Party,
    Call::Offers(Capacity::Direction(0), [50, 50, 5, 5, 0]),
    Call::Offers(Capacity::Profile(0), [50, 50, 5, 5, 0]),
    Call::Bid([30, 30, 0, 0, 0]),
    Call::Offers(Capacity::Direction(0), [50, 20, 5, 5, 0]),
    Call::Offers(Capacity::Profile(0), [20, 50, 5, 5, 0]),
];

pub const SHORTFALLS_SEARCHES: [Search; 5] = [
    Search {
        hours: DIRECTION_0_HOURS_1_TO_4,
        mw: [1, 0, 0, 0, 0],
        found: Some((Hour(1), CapacityOf::Profile(0))),
        compared: 2,
    },
    Search {
        hours: DIRECTION_0_HOURS_1_TO_4,
        mw: [20, 0, 0, 0, 0],
        found: Some((Hour(1), CapacityOf::Profile(0))),
        compared: 2,
    },
    Search {
        hours: DIRECTION_0_HOURS_1_TO_4,
        mw: [21, 0, 0, 0, 0],
        found: Some((Hour(1), CapacityOf::Direction)),
        compared: 1,
    },
    Search {
        hours: DIRECTION_0_HOURS_1_TO_4,
        mw: [0, 1, 0, 0, 0],
        found: Some((Hour(2), CapacityOf::Direction)),
        compared: 3,
    },
    // Nothing is asked for in the hours where nothing is left.
    Search {
        hours: DIRECTION_0_HOURS_1_TO_4,
        mw: [0, 0, 5, 0, 0],
        found: None,
        compared: 6,
    },
];

// ---- eight profiles

// A day of 25 hours. Each profile holds both directions; direction 1 has one-hour sessions.
pub const EIGHT_PROFILES_CALLS: [Call; 21] = [
    Call::OpenDay(10, 25),
    Call::Direction(0, 4, 4),
    Call::Direction(4, 1, 1),
    Call::Profile(0b11),
    Call::Profile(0b11),
    Call::Profile(0b11),
    Call::Profile(0b11),
    Call::Profile(0b11),
    Call::Profile(0b11),
    Call::Profile(0b11),
    Call::Profile(0b11),
    Call::Offers(Capacity::Direction(0), [100, 100, 100, 100, 100]),
    Call::Offers(Capacity::Direction(1), [0, 0, 0, 0, 3]),
    Call::Offers(Capacity::Profile(0), [100, 100, 100, 100, 100]),
    Call::Offers(Capacity::Profile(1), [100, 100, 100, 100, 100]),
    Call::Offers(Capacity::Profile(2), [100, 100, 100, 100, 100]),
    Call::Offers(Capacity::Profile(3), [100, 100, 100, 100, 100]),
    Call::Offers(Capacity::Profile(4), [100, 100, 100, 100, 100]),
    Call::Offers(Capacity::Profile(5), [100, 100, 100, 100, 100]),
    Call::Offers(Capacity::Profile(6), [100, 100, 100, 100, 95]),
    Call::Offers(Capacity::Profile(7), [100, 100, 100, 100, 90]),
];

pub const EIGHT_PROFILES_SEARCHES: [Search; 9] = [
    // The most that a search compares.
    Search {
        hours: DIRECTION_0_HOURS_1_TO_5,
        mw: [0, 0, 0, 0, 90],
        found: None,
        compared: 45,
    },
    Search {
        hours: DIRECTION_0_HOURS_1_TO_5,
        mw: [100, 100, 100, 100, 90],
        found: None,
        compared: 45,
    },
    Search {
        hours: DIRECTION_0_HOURS_1_TO_5,
        mw: [0, 0, 0, 0, 91],
        found: Some((Hour(5), CapacityOf::Profile(7))),
        compared: 45,
    },
    Search {
        hours: DIRECTION_0_HOURS_1_TO_5,
        mw: [0, 0, 0, 0, 96],
        found: Some((Hour(5), CapacityOf::Profile(6))),
        compared: 44,
    },
    Search {
        hours: DIRECTION_0_HOURS_1_TO_5,
        mw: [0, 0, 0, 0, 101],
        found: Some((Hour(5), CapacityOf::Direction)),
        compared: 37,
    },
    Search {
        hours: DIRECTION_0_HOURS_1_TO_5,
        mw: [0, 0, 0, 100, 0],
        found: None,
        compared: 36,
    },
    // Never offered, in the last hour of the day.
    Search {
        hours: DIRECTION_0_HOURS_22_TO_25,
        mw: [0, 0, 0, 1, 0],
        found: Some((Hour(25), CapacityOf::Direction)),
        compared: 28,
    },
    Search {
        hours: DIRECTION_1_HOUR_25,
        mw: [1, 0, 0, 0, 0],
        found: Some((Hour(25), CapacityOf::Direction)),
        compared: 1,
    },
    Search {
        hours: DIRECTION_1_HOUR_5,
        mw: [3, 9, 9, 9, 9],
        found: None,
        compared: 9,
    },
];

// ---- a short day

// A day of 23 hours, whose first four-hour session has three.
pub const SHORT_DAY_CALLS: [Call; 3] = [
    Call::OpenDay(3, 29),
    Call::Direction(0, 4, 4),
    Call::Offers(Capacity::Direction(0), [5, 5, 5, 0, 0]),
];

pub const SHORT_DAY_SEARCHES: [Search; 2] = [
    Search {
        hours: DIRECTION_0_HOURS_1_TO_3,
        mw: [5, 5, 5, 9, 9],
        found: None,
        compared: 3,
    },
    Search {
        hours: DIRECTION_0_HOURS_1_TO_3,
        mw: [0, 0, 0, 9, 9],
        found: None,
        compared: 0,
    },
];
