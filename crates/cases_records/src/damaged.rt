// Records that are to be refused. The tables are five, since at one with all 113 rows the check runs out of its steps.

// What is wrong with a record, and its bytes.
#[derive(Clone, Copy)]
pub struct Damaged(pub &'static str, pub &'static [u8]);

// Too short for a map, a map of no kind, or bit 15.
pub static BITS: [Damaged; 8] = [
    Damaged("no bytes", b""),
    Damaged("one byte", b"\x57"),
    Damaged("no bits", b"\x00\x00"),
    Damaged(
        "direction offer with bit 15",
        b"\x13\xC2\x01\xE8\x03\x02\x64\x00\x05",
    ),
    Damaged(
        "profile offer with bit 15",
        b"\x23\xC2\x02\xE8\x03\x03\x64\x00\x05",
    ),
    Damaged(
        "bid with bit 15",
        b"\x57\x82\x03\x4C\x04\x02\x00\x01\x32\x00",
    ),
    Damaged(
        "nomination with bit 15",
        b"\x8F\x83\x04\x14\x05\x01\x02\x2C\x01\x01\x64\x00",
    ),
    Damaged("matching with bit 15", b"\x53\x80\x05\x78\x05\x02\x03"),
];

// A field of the kind is missing.
pub static LACKING: [Damaged; 23] = [
    Damaged(
        "direction offer without kind",
        b"\x12\x42\xE8\x03\x02\x64\x00\x05",
    ),
    Damaged(
        "direction offer without time",
        b"\x11\x42\x01\x02\x64\x00\x05",
    ),
    Damaged(
        "direction offer without direction",
        b"\x03\x42\x01\xE8\x03\x64\x00\x05",
    ),
    Damaged(
        "direction offer without hour",
        b"\x13\x02\x01\xE8\x03\x02\x64\x00",
    ),
    Damaged(
        "profile offer without kind",
        b"\x22\x42\xE8\x03\x03\x64\x00\x05",
    ),
    Damaged(
        "profile offer without time",
        b"\x21\x42\x02\x03\x64\x00\x05",
    ),
    Damaged(
        "profile offer without profile",
        b"\x03\x42\x02\xE8\x03\x64\x00\x05",
    ),
    Damaged(
        "profile offer without hour",
        b"\x23\x02\x02\xE8\x03\x03\x64\x00",
    ),
    Damaged("bid without kind", b"\x56\x02\x4C\x04\x02\x00\x01\x32\x00"),
    Damaged("bid without time", b"\x55\x02\x03\x02\x00\x01\x32\x00"),
    Damaged("bid without party", b"\x53\x02\x03\x4C\x04\x00\x01\x32\x00"),
    Damaged(
        "bid without direction",
        b"\x47\x02\x03\x4C\x04\x02\x01\x32\x00",
    ),
    Damaged(
        "bid without session",
        b"\x17\x02\x03\x4C\x04\x02\x00\x32\x00",
    ),
    Damaged(
        "nomination without kind",
        b"\x8E\x03\x14\x05\x01\x02\x2C\x01\x01\x64\x00",
    ),
    Damaged(
        "nomination without time",
        b"\x8D\x03\x04\x01\x02\x2C\x01\x01\x64\x00",
    ),
    Damaged(
        "nomination without party",
        b"\x8B\x03\x04\x14\x05\x02\x2C\x01\x01\x64\x00",
    ),
    Damaged(
        "nomination without other",
        b"\x87\x03\x04\x14\x05\x01\x2C\x01\x01\x64\x00",
    ),
    Damaged(
        "nomination without right",
        b"\x0F\x03\x04\x14\x05\x01\x02\x01\x64\x00",
    ),
    Damaged(
        "nomination without side",
        b"\x8F\x02\x04\x14\x05\x01\x02\x2C\x01\x64\x00",
    ),
    Damaged("matching without kind", b"\x52\x00\x78\x05\x02\x03"),
    Damaged("matching without time", b"\x51\x00\x05\x02\x03"),
    Damaged("matching without direction", b"\x43\x00\x05\x78\x05\x03"),
    Damaged("matching without session", b"\x13\x00\x05\x78\x05\x02"),
];

// A field that is foreign to the kind.
pub static FOREIGN: [Damaged; 40] = [
    Damaged(
        "direction offer with party",
        b"\x17\x42\x01\xE8\x03\x01\x02\x64\x00\x05",
    ),
    Damaged(
        "direction offer with other",
        b"\x1B\x42\x01\xE8\x03\x01\x02\x64\x00\x05",
    ),
    Damaged(
        "direction offer with profile",
        b"\x33\x42\x01\xE8\x03\x02\x01\x64\x00\x05",
    ),
    Damaged(
        "direction offer with session",
        b"\x53\x42\x01\xE8\x03\x02\x01\x64\x00\x05",
    ),
    Damaged(
        "direction offer with right",
        b"\x93\x42\x01\xE8\x03\x02\x01\x00\x64\x00\x05",
    ),
    Damaged(
        "direction offer with side",
        b"\x13\x43\x01\xE8\x03\x02\x01\x64\x00\x05",
    ),
    Damaged(
        "direction offer with MW 2",
        b"\x13\x46\x01\xE8\x03\x02\x64\x00\x01\x00\x05",
    ),
    Damaged(
        "direction offer with MW 3",
        b"\x13\x4A\x01\xE8\x03\x02\x64\x00\x01\x00\x05",
    ),
    Damaged(
        "direction offer with MW 4",
        b"\x13\x52\x01\xE8\x03\x02\x64\x00\x01\x00\x05",
    ),
    Damaged(
        "direction offer with MW 5",
        b"\x13\x62\x01\xE8\x03\x02\x64\x00\x01\x00\x05",
    ),
    Damaged(
        "profile offer with party",
        b"\x27\x42\x02\xE8\x03\x01\x03\x64\x00\x05",
    ),
    Damaged(
        "profile offer with other",
        b"\x2B\x42\x02\xE8\x03\x01\x03\x64\x00\x05",
    ),
    Damaged(
        "profile offer with direction",
        b"\x33\x42\x02\xE8\x03\x01\x03\x64\x00\x05",
    ),
    Damaged(
        "profile offer with session",
        b"\x63\x42\x02\xE8\x03\x03\x01\x64\x00\x05",
    ),
    Damaged(
        "profile offer with right",
        b"\xA3\x42\x02\xE8\x03\x03\x01\x00\x64\x00\x05",
    ),
    Damaged(
        "profile offer with side",
        b"\x23\x43\x02\xE8\x03\x03\x01\x64\x00\x05",
    ),
    Damaged(
        "profile offer with MW 2",
        b"\x23\x46\x02\xE8\x03\x03\x64\x00\x01\x00\x05",
    ),
    Damaged(
        "profile offer with MW 3",
        b"\x23\x4A\x02\xE8\x03\x03\x64\x00\x01\x00\x05",
    ),
    Damaged(
        "profile offer with MW 4",
        b"\x23\x52\x02\xE8\x03\x03\x64\x00\x01\x00\x05",
    ),
    Damaged(
        "profile offer with MW 5",
        b"\x23\x62\x02\xE8\x03\x03\x64\x00\x01\x00\x05",
    ),
    Damaged(
        "bid with other",
        b"\x5F\x02\x03\x4C\x04\x02\x01\x00\x01\x32\x00",
    ),
    Damaged(
        "bid with profile",
        b"\x77\x02\x03\x4C\x04\x02\x00\x01\x01\x32\x00",
    ),
    Damaged(
        "bid with right",
        b"\xD7\x02\x03\x4C\x04\x02\x00\x01\x01\x00\x32\x00",
    ),
    Damaged(
        "bid with side",
        b"\x57\x03\x03\x4C\x04\x02\x00\x01\x01\x32\x00",
    ),
    Damaged(
        "bid with hour",
        b"\x57\x42\x03\x4C\x04\x02\x00\x01\x32\x00\x01",
    ),
    Damaged(
        "nomination with direction",
        b"\x9F\x03\x04\x14\x05\x01\x02\x01\x2C\x01\x01\x64\x00",
    ),
    Damaged(
        "nomination with profile",
        b"\xAF\x03\x04\x14\x05\x01\x02\x01\x2C\x01\x01\x64\x00",
    ),
    Damaged(
        "nomination with session",
        b"\xCF\x03\x04\x14\x05\x01\x02\x01\x2C\x01\x01\x64\x00",
    ),
    Damaged(
        "nomination with hour",
        b"\x8F\x43\x04\x14\x05\x01\x02\x2C\x01\x01\x64\x00\x01",
    ),
    Damaged("matching with party", b"\x57\x00\x05\x78\x05\x01\x02\x03"),
    Damaged("matching with other", b"\x5B\x00\x05\x78\x05\x01\x02\x03"),
    Damaged("matching with profile", b"\x73\x00\x05\x78\x05\x02\x01\x03"),
    Damaged(
        "matching with right",
        b"\xD3\x00\x05\x78\x05\x02\x03\x01\x00",
    ),
    Damaged("matching with side", b"\x53\x01\x05\x78\x05\x02\x03\x01"),
    Damaged(
        "matching with MW 1",
        b"\x53\x02\x05\x78\x05\x02\x03\x01\x00",
    ),
    Damaged(
        "matching with MW 2",
        b"\x53\x04\x05\x78\x05\x02\x03\x01\x00",
    ),
    Damaged(
        "matching with MW 3",
        b"\x53\x08\x05\x78\x05\x02\x03\x01\x00",
    ),
    Damaged(
        "matching with MW 4",
        b"\x53\x10\x05\x78\x05\x02\x03\x01\x00",
    ),
    Damaged(
        "matching with MW 5",
        b"\x53\x20\x05\x78\x05\x02\x03\x01\x00",
    ),
    Damaged("matching with hour", b"\x53\x40\x05\x78\x05\x02\x03\x01"),
];

// A kind that isn't the map's.
pub static KINDS: [Damaged; 30] = [
    Damaged(
        "direction offer with kind 0",
        b"\x13\x42\x00\xE8\x03\x02\x64\x00\x05",
    ),
    Damaged(
        "direction offer with kind 2",
        b"\x13\x42\x02\xE8\x03\x02\x64\x00\x05",
    ),
    Damaged(
        "direction offer with kind 3",
        b"\x13\x42\x03\xE8\x03\x02\x64\x00\x05",
    ),
    Damaged(
        "direction offer with kind 4",
        b"\x13\x42\x04\xE8\x03\x02\x64\x00\x05",
    ),
    Damaged(
        "direction offer with kind 5",
        b"\x13\x42\x05\xE8\x03\x02\x64\x00\x05",
    ),
    Damaged(
        "direction offer with kind 6",
        b"\x13\x42\x06\xE8\x03\x02\x64\x00\x05",
    ),
    Damaged(
        "profile offer with kind 0",
        b"\x23\x42\x00\xE8\x03\x03\x64\x00\x05",
    ),
    Damaged(
        "profile offer with kind 1",
        b"\x23\x42\x01\xE8\x03\x03\x64\x00\x05",
    ),
    Damaged(
        "profile offer with kind 3",
        b"\x23\x42\x03\xE8\x03\x03\x64\x00\x05",
    ),
    Damaged(
        "profile offer with kind 4",
        b"\x23\x42\x04\xE8\x03\x03\x64\x00\x05",
    ),
    Damaged(
        "profile offer with kind 5",
        b"\x23\x42\x05\xE8\x03\x03\x64\x00\x05",
    ),
    Damaged(
        "profile offer with kind 6",
        b"\x23\x42\x06\xE8\x03\x03\x64\x00\x05",
    ),
    Damaged(
        "bid with kind 0",
        b"\x57\x02\x00\x4C\x04\x02\x00\x01\x32\x00",
    ),
    Damaged(
        "bid with kind 1",
        b"\x57\x02\x01\x4C\x04\x02\x00\x01\x32\x00",
    ),
    Damaged(
        "bid with kind 2",
        b"\x57\x02\x02\x4C\x04\x02\x00\x01\x32\x00",
    ),
    Damaged(
        "bid with kind 4",
        b"\x57\x02\x04\x4C\x04\x02\x00\x01\x32\x00",
    ),
    Damaged(
        "bid with kind 5",
        b"\x57\x02\x05\x4C\x04\x02\x00\x01\x32\x00",
    ),
    Damaged(
        "bid with kind 6",
        b"\x57\x02\x06\x4C\x04\x02\x00\x01\x32\x00",
    ),
    Damaged(
        "nomination with kind 0",
        b"\x8F\x03\x00\x14\x05\x01\x02\x2C\x01\x01\x64\x00",
    ),
    Damaged(
        "nomination with kind 1",
        b"\x8F\x03\x01\x14\x05\x01\x02\x2C\x01\x01\x64\x00",
    ),
    Damaged(
        "nomination with kind 2",
        b"\x8F\x03\x02\x14\x05\x01\x02\x2C\x01\x01\x64\x00",
    ),
    Damaged(
        "nomination with kind 3",
        b"\x8F\x03\x03\x14\x05\x01\x02\x2C\x01\x01\x64\x00",
    ),
    Damaged(
        "nomination with kind 5",
        b"\x8F\x03\x05\x14\x05\x01\x02\x2C\x01\x01\x64\x00",
    ),
    Damaged(
        "nomination with kind 6",
        b"\x8F\x03\x06\x14\x05\x01\x02\x2C\x01\x01\x64\x00",
    ),
    Damaged("matching with kind 0", b"\x53\x00\x00\x78\x05\x02\x03"),
    Damaged("matching with kind 1", b"\x53\x00\x01\x78\x05\x02\x03"),
    Damaged("matching with kind 2", b"\x53\x00\x02\x78\x05\x02\x03"),
    Damaged("matching with kind 3", b"\x53\x00\x03\x78\x05\x02\x03"),
    Damaged("matching with kind 4", b"\x53\x00\x04\x78\x05\x02\x03"),
    Damaged("matching with kind 6", b"\x53\x00\x06\x78\x05\x02\x03"),
];

// An MW bit with an MW of 0.
pub static ZEROS: [Damaged; 12] = [
    Damaged(
        "direction offer with MW 1 of 0",
        b"\x13\x42\x01\xE8\x03\x02\x00\x00\x05",
    ),
    Damaged(
        "profile offer with MW 1 of 0",
        b"\x23\x42\x02\xE8\x03\x03\x00\x00\x05",
    ),
    Damaged(
        "bid with MW 1 of 0",
        b"\x57\x02\x03\x4C\x04\x02\x00\x01\x00\x00",
    ),
    Damaged(
        "bid with MW 2 of 0",
        b"\x57\x06\x03\x4C\x04\x02\x00\x01\x32\x00\x00\x00",
    ),
    Damaged(
        "bid with MW 3 of 0",
        b"\x57\x0A\x03\x4C\x04\x02\x00\x01\x32\x00\x00\x00",
    ),
    Damaged(
        "bid with MW 4 of 0",
        b"\x57\x12\x03\x4C\x04\x02\x00\x01\x32\x00\x00\x00",
    ),
    Damaged(
        "bid with MW 5 of 0",
        b"\x57\x22\x03\x4C\x04\x02\x00\x01\x32\x00\x00\x00",
    ),
    Damaged(
        "nomination with MW 1 of 0",
        b"\x8F\x03\x04\x14\x05\x01\x02\x2C\x01\x01\x00\x00",
    ),
    Damaged(
        "nomination with MW 2 of 0",
        b"\x8F\x07\x04\x14\x05\x01\x02\x2C\x01\x01\x64\x00\x00\x00",
    ),
    Damaged(
        "nomination with MW 3 of 0",
        b"\x8F\x0B\x04\x14\x05\x01\x02\x2C\x01\x01\x64\x00\x00\x00",
    ),
    Damaged(
        "nomination with MW 4 of 0",
        b"\x8F\x13\x04\x14\x05\x01\x02\x2C\x01\x01\x64\x00\x00\x00",
    ),
    Damaged(
        "nomination with MW 5 of 0",
        b"\x8F\x23\x04\x14\x05\x01\x02\x2C\x01\x01\x64\x00\x00\x00",
    ),
];
