// Call records of every kind: each read whole, with bytes after it and cut short, and written back; calls that the writer refuses; and
// damaged records.
#![tactic(auto)]

mod damaged;
mod records;

use cases_printing::{Hexadecimal, Reply, Report};
use damaged::{BITS, Damaged, FOREIGN, KINDS, LACKING, ZEROS};
use record::RecordRead;
use records::{NO_CALL, RECORDS, Record};
use rules::{CallRecord, Hour, ReplyNumbers, Session};
use std::{fmt, io};

// What a buffer holds where nothing was written.
const UNTOUCHED: u8 = 0xEE;

// The fields of a call in the order of their bits, but for the hour, which stands before the MW.
#[derive(Clone, Copy)]
struct Fields(CallRecord);

impl fmt::Display for Fields {
    fn fmt<W: fmt::Write>(&self, f: &mut fmt::Formatter<W>) -> fmt::Result {
        let call = self.0;
        write!(
            f,
            "kind {}, time {}, party {}",
            call.kind, call.time, call.party
        )?;
        write!(f, ", other {}, direction {}", call.other, call.direction)?;
        write!(f, ", profile {}, session {}", call.profile, call.session.0)?;
        write!(
            f,
            ", right {}, side {}, hour {}, MW",
            call.right, call.side, call.hour.0
        )?;
        for mw in call.mw {
            write!(f, " {mw}")?;
        }
        Ok(())
    }
}

// ---- reading

const REFUSED: Reply = Reply(ReplyNumbers {
    number: 1,
    first: 0,
    second: 0,
});

// What was read, or the reply where the record is refused.
#[derive(Clone, Copy, PartialEq)]
struct Reading(Result<RecordRead, Reply>);

impl fmt::Display for Reading {
    fn fmt<W: fmt::Write>(&self, f: &mut fmt::Formatter<W>) -> fmt::Result {
        match self.0 {
            Ok(read) => write!(
                f,
                "answer 0 0 0, length {}, {}",
                read.length,
                Fields(read.call)
            ),
            Err(REFUSED) => f.write_str("answer 1 and zeros"),
            Err(reply) => write!(f, "answer {reply}"),
        }
    }
}

fn read_case(report: &mut Report<impl Print>, bytes: &[u8], expected: Reading) -> io::Result<()> {
    let found = Reading(record::read(bytes).map_err(Reply::from));
    print!(report.rt; "read{}: {found}; expected {expected}", Hexadecimal(bytes))?;
    report.end(found == expected)
}

fn refused_case(report: &mut Report<impl Print>, bytes: &[u8]) -> io::Result<()> {
    read_case(report, bytes, Reading(Err(REFUSED)))
}

// The record cut short at each length.
fn cut_cases(report: &mut Report<impl Print>, bytes: &[u8]) -> io::Result<()> {
    for length in 0..bytes.len() {
        refused_case(report, &bytes[..length])?;
    }
    Ok(())
}

// ---- writing

// A buffer, longer than any record, that begins with the bytes.
fn buffer_with(bytes: &[u8]) -> [u8; 24] {
    let mut buffer = [UNTOUCHED; 24];
    for (place, byte) in buffer.iter_mut().zip(bytes) {
        *place = *byte;
    }
    buffer
}

// The writer's answer, and what it leaves in the buffer.
#[derive(Clone, Copy, PartialEq)]
struct Written<'a> {
    reply: Reply,
    buffer: &'a [u8],
}

impl fmt::Display for Written<'_> {
    fn fmt<W: fmt::Write>(&self, f: &mut fmt::Formatter<W>) -> fmt::Result {
        write!(
            f,
            "answer {}, buffer{}",
            self.reply,
            Hexadecimal(self.buffer)
        )
    }
}

// Writes the call into a buffer of a size, which is then to begin with the record; where there is none, the call is to be refused.
fn write_case(
    report: &mut Report<impl Print>,
    call: CallRecord,
    size: usize,
    record: Option<&[u8]>,
) -> io::Result<()> {
    let size = size.min(24);
    let mut buffer = buffer_with(b"");
    let room = &mut buffer[..size];
    let reply = Reply::from(record::write(call, room));
    let found = Written {
        reply,
        buffer: room,
    };
    let begun = buffer_with(record.unwrap_or(b""));
    let expected = Written {
        reply: record.map_or(REFUSED, granted),
        buffer: &begun[..size],
    };
    print!(report.rt;
        "write {} into {size} bytes: {found}; expected {expected}",
        Fields(call)
    )?;
    report.end(found == expected)
}

fn granted(record: &[u8]) -> Reply {
    Reply(ReplyNumbers {
        number: 0,
        first: u32::try_from(record.len()).unwrap_or(u32::MAX),
        second: 0,
    })
}

// With room after the record, with just enough, and with a byte too few.
fn write_cases(report: &mut Report<impl Print>, record: Record) -> io::Result<()> {
    let bytes = record.bytes;
    let length = bytes.len();
    write_case(report, record.call, length + 2, Some(bytes))?;
    write_case(report, record.call, length, Some(bytes))?;
    write_case(report, record.call, length.saturating_sub(1), None)
}

// ---- records of each kind

fn record_cases(report: &mut Report<impl Print>, record: Record) -> io::Result<()> {
    let bytes = record.bytes;
    let expected = Reading(Ok(RecordRead {
        length: bytes.len(),
        call: record.call,
    }));
    read_case(report, bytes, expected)?;
    read_case(report, &buffer_with(bytes), expected)?;
    cut_cases(report, bytes)?;
    write_cases(report, record)
}

fn kinds_cases(report: &mut Report<impl Print>) -> io::Result<()> {
    for record in &RECORDS {
        record_cases(report, *record)?;
    }
    Ok(())
}

// ---- what the writer refuses

// The fields of each kind, by bit. The kind is the record's own number, which may be any byte (see `CallRecord`).
fn own_fields(kind: u8) -> u32 {
    match kind {
        1 => 0b100_0010_0001_0011,
        2 => 0b100_0010_0010_0011,
        3 => 0b011_1110_0101_0111,
        4 => 0b011_1111_1000_1111,
        5 => 0b000_0000_0101_0011,
        _ => 0,
    }
}

const AT_1000: CallRecord = CallRecord {
    time: 1000,
    ..NO_CALL
};

// Each field but the kind, by bit, and a call at 1,000 with 1 in it.
const FIELDS: [(u32, CallRecord); 14] = [
    (1 << 1, AT_1000),
    (
        1 << 2,
        CallRecord {
            party: 1,
            ..AT_1000
        },
    ),
    (
        1 << 3,
        CallRecord {
            other: 1,
            ..AT_1000
        },
    ),
    (
        1 << 4,
        CallRecord {
            direction: 1,
            ..AT_1000
        },
    ),
    (
        1 << 5,
        CallRecord {
            profile: 1,
            ..AT_1000
        },
    ),
    (
        1 << 6,
        CallRecord {
            session: Session(1),
            ..AT_1000
        },
    ),
    (
        1 << 7,
        CallRecord {
            right: 1,
            ..AT_1000
        },
    ),
    (1 << 8, CallRecord { side: 1, ..AT_1000 }),
    (
        1 << 9,
        CallRecord {
            mw: [1, 0, 0, 0, 0],
            ..AT_1000
        },
    ),
    (
        1 << 10,
        CallRecord {
            mw: [0, 1, 0, 0, 0],
            ..AT_1000
        },
    ),
    (
        1 << 11,
        CallRecord {
            mw: [0, 0, 1, 0, 0],
            ..AT_1000
        },
    ),
    (
        1 << 12,
        CallRecord {
            mw: [0, 0, 0, 1, 0],
            ..AT_1000
        },
    ),
    (
        1 << 13,
        CallRecord {
            mw: [0, 0, 0, 0, 1],
            ..AT_1000
        },
    ),
    (
        1 << 14,
        CallRecord {
            hour: Hour(1),
            ..AT_1000
        },
    ),
];

// The fields that are foreign to the kind; a kind that is none has not even a time.
fn foreign_cases(report: &mut Report<impl Print>, kind: u8) -> io::Result<()> {
    for (field, call) in FIELDS {
        if own_fields(kind) & field == 0 {
            write_case(report, CallRecord { kind, ..call }, 12, None)?;
        }
    }
    Ok(())
}

// For each kind and for 0 and 6.
fn all_foreign_cases(report: &mut Report<impl Print>) -> io::Result<()> {
    for kind in 0..=6 {
        foreign_cases(report, kind)?;
    }
    Ok(())
}

// ---- damaged records

fn damaged_cases(report: &mut Report<impl Print>, rows: &[Damaged]) -> io::Result<()> {
    for &Damaged(what, bytes) in rows {
        print!(report.rt; "{what}: ")?;
        refused_case(report, bytes)?;
    }
    Ok(())
}

fn all_damaged_cases(report: &mut Report<impl Print>) -> io::Result<()> {
    damaged_cases(report, &BITS)?;
    damaged_cases(report, &LACKING)?;
    damaged_cases(report, &FOREIGN)?;
    damaged_cases(report, &KINDS)?;
    damaged_cases(report, &ZEROS)
}

pub fn run(report: &mut Report<impl Print>) -> io::Result<()> {
    kinds_cases(report)?;
    all_foreign_cases(report)?;
    all_damaged_cases(report)
}
