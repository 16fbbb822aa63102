// Records of each kind, with the calls that they hold. The last of a kind has the most that each field can hold.
use rules::{CallRecord, Hour, Session};

#[derive(Clone, Copy)]
pub struct Record {
    pub bytes: &'static [u8],
    pub call: CallRecord,
}

pub const NO_CALL: CallRecord = CallRecord {
    kind: 0,
    time: 0,
    party: 0,
    other: 0,
    direction: 0,
    profile: 0,
    session: Session(0),
    right: 0,
    side: 0,
    mw: [0, 0, 0, 0, 0],
    hour: Hour(0),
};

pub static RECORDS: [Record; 18] = [
    Record {
        bytes: b"\x13\x40\x01\xC0\x03\x00\x01",
        call: CallRecord {
            kind: 1,
            time: 960,
            hour: Hour(1),
            ..NO_CALL
        },
    },
    Record {
        bytes: b"\x13\x42\x01\xE8\x03\x00\x64\x00\x01",
        call: CallRecord {
            kind: 1,
            time: 1000,
            mw: [100, 0, 0, 0, 0],
            hour: Hour(1),
            ..NO_CALL
        },
    },
    Record {
        bytes: b"\x13\x42\x01\xFF\xFF\xFF\xFF\xFF\xFF",
        call: CallRecord {
            kind: 1,
            time: 65535,
            direction: 255,
            mw: [65535, 0, 0, 0, 0],
            hour: Hour(255),
            ..NO_CALL
        },
    },
    Record {
        bytes: b"\x23\x40\x02\xCD\x04\x07\x19",
        call: CallRecord {
            kind: 2,
            time: 1229,
            profile: 7,
            hour: Hour(25),
            ..NO_CALL
        },
    },
    Record {
        bytes: b"\x23\x42\x02\xD0\x07\x01\x0F\x27\x18",
        call: CallRecord {
            kind: 2,
            time: 2000,
            profile: 1,
            mw: [9999, 0, 0, 0, 0],
            hour: Hour(24),
            ..NO_CALL
        },
    },
    Record {
        bytes: b"\x23\x42\x02\xFF\xFF\xFF\xFF\xFF\xFF",
        call: CallRecord {
            kind: 2,
            time: 65535,
            profile: 255,
            mw: [65535, 0, 0, 0, 0],
            hour: Hour(255),
            ..NO_CALL
        },
    },
    Record {
        bytes: b"\x57\x02\x03\x4C\x04\x02\x00\x01\x32\x00",
        call: CallRecord {
            kind: 3,
            time: 1100,
            party: 2,
            session: Session(1),
            mw: [50, 0, 0, 0, 0],
            ..NO_CALL
        },
    },
    Record {
        bytes: b"\x57\x00\x03\x38\x04\x00\x00\x01",
        call: CallRecord {
            kind: 3,
            time: 1080,
            session: Session(1),
            ..NO_CALL
        },
    },
    Record {
        bytes: b"\x57\x16\x03\xDC\x05\x3F\x17\x06\x64\x00\x96\x00\xC8\x00",
        call: CallRecord {
            kind: 3,
            time: 1500,
            party: 63,
            direction: 23,
            session: Session(6),
            mw: [100, 150, 0, 200, 0],
            ..NO_CALL
        },
    },
    Record {
        bytes: b"\x57\x3E\x03\x09\x05\x05\x01\x01\x0A\x00\x14\x00\x1E\x00\x28\x00\x88\x13",
        call: CallRecord {
            kind: 3,
            time: 1289,
            party: 5,
            direction: 1,
            session: Session(1),
            mw: [10, 20, 30, 40, 5000],
            ..NO_CALL
        },
    },
    Record {
        bytes: b"\x57\x3E\x03\xFF\xFF\xFF\xFF\xFF\xFF\xFF\xFF\xFF\xFF\xFF\xFF\xFF\xFF\xFF",
        call: CallRecord {
            kind: 3,
            time: 65535,
            party: 255,
            direction: 255,
            session: Session(255),
            mw: [65535, 65535, 65535, 65535, 65535],
            ..NO_CALL
        },
    },
    Record {
        bytes: b"\x8F\x01\x04\x14\x05\x01\x02\x2C\x01\x00",
        call: CallRecord {
            kind: 4,
            time: 1300,
            party: 1,
            other: 2,
            right: 300,
            ..NO_CALL
        },
    },
    Record {
        bytes: b"\x8F\x21\x04\x14\x05\x03\x03\xFF\x01\x01\x0F\x27",
        call: CallRecord {
            kind: 4,
            time: 1300,
            party: 3,
            other: 3,
            right: 511,
            side: 1,
            mw: [0, 0, 0, 0, 9999],
            ..NO_CALL
        },
    },
    Record {
        bytes: b"\x8F\x0D\x04\xE5\x0A\x00\x3F\x00\x00\x01\x00\x01\x01\x00",
        call: CallRecord {
            kind: 4,
            time: 2789,
            other: 63,
            side: 1,
            mw: [0, 256, 1, 0, 0],
            ..NO_CALL
        },
    },
    Record {
        bytes: b"\x8F\x3F\x04\x39\x04\x07\x08\x0C\x00\x00\x01\x00\x02\x00\x03\x00\x04\x00\x05\x00",
        call: CallRecord {
            kind: 4,
            time: 1081,
            party: 7,
            other: 8,
            right: 12,
            mw: [1, 2, 3, 4, 5],
            ..NO_CALL
        },
    },
    Record {
        bytes: b"\x8F\x3F\x04\xFF\xFF\xFF\xFF\xFF\xFF\xFF\xFF\xFF\xFF\xFF\xFF\xFF\xFF\xFF\xFF\xFF",
        call: CallRecord {
            kind: 4,
            time: 65535,
            party: 255,
            other: 255,
            right: 65535,
            side: 255,
            mw: [65535, 65535, 65535, 65535, 65535],
            ..NO_CALL
        },
    },
    Record {
        bytes: b"\x53\x00\x05\x73\x05\x02\x01",
        call: CallRecord {
            kind: 5,
            time: 1395,
            direction: 2,
            session: Session(1),
            ..NO_CALL
        },
    },
    Record {
        bytes: b"\x53\x00\x05\xFF\xFF\xFF\xFF",
        call: CallRecord {
            kind: 5,
            time: 65535,
            direction: 255,
            session: Session(255),
            ..NO_CALL
        },
    },
];
