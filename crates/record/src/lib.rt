// Call records: a map of two bytes, then the fields whose bit stands, in bit order, each low byte first.
#![tactic(auto)]

ghost use Rattle.std.specs.Prelude.{◌≡◌, ◌||◌, not, ◌+◌, ◌≤◌, nat_lt, length, get_or};
ghost use Rattle.std.proofs.lemmas.List.Edits.{sets};
ghost use Rattle.rules.specs.Records.{widths, kind_at, is_kind, foreign, bytes_of, body, number_at};
ghost use Rattle.record.specs.Steps.{Finds, refuses_found, Length};
ghost use Rattle.record.specs.Promises.{Reads, Writes};

use fields::{Field, Fields};
use rules::{Answer, CallRecord, Refusal};

// A record that was read: how many bytes it takes, and its call.
#[derive(Clone, Copy, PartialEq, Eq)]
pub struct RecordRead {
    pub length: usize,
    pub call: CallRecord,
}

// The map and the fields that bytes hold, and the position past the last: three results, and no buffer with its length.
#[derive(Clone, Copy)]
struct Found {
    map: u32,
    fields: Fields,
    end: usize,
}

// ---- reading

// 0 past the end.
fn byte_at(bytes: &[u8], at: usize) -> u8
    ensures { result ≡ get_or bytes.now at 0 }
{
    bytes.get(at).copied().unwrap_or(0)
}

// The number of some bytes at a position, from the last byte down. Bytes past the end count as 0.
// By position: a `fold` over the bytes there was tried, and its proof didn't close.
#[tactic(auto, using(crate::proofs::Turns::number_next, crate::proofs::Turns::number_done, crate::proofs::Turns::number_room))]
fn number_at(bytes: &[u8], at: usize, width: usize) -> u32
    requires { (at ≤ 100) × (width ≤ 4) }
    ensures { result ≡ number_at width bytes.now at }
{
    let mut number: u32 = 0;
    for i in (0..width).rev() {
        number = byte_at(bytes, at + i) as u32 + 256 * number;
    }
    number
}

// The map, and the fields whose bit stands in it, one after the other.
#[tactic(auto, using(crate::proofs::Turns::fields_next, crate::proofs::Turns::end_next, crate::proofs::Turns::take_set))]
fn find_fields(bytes: &[u8]) -> Found
    ensures { Finds bytes.now result }
{
    let map = number_at(bytes, 0, 2);
    let mut values = [0u32; 15];
    let mut end: usize = 2;
    for (bit, value) in values.iter_mut().enumerate() {
        let field = Field { bit };
        let size = field.size_read(map);
        *value = number_at(bytes, end, size);
        end += size;
    }
    Found {
        map,
        fields: Fields(values),
        end,
    }
}

// The record ends early, or its map is refused.
fn reader_refuses(found: Found, length: usize) -> bool
    ensures { result ≡ refuses_found found length }
{
    length < 2 || length < found.end || found.fields.map_refused(found.map)
}

// Reads the record that the bytes begin with, and ignores what follows it.
pub fn read(bytes: &[u8]) -> Result<RecordRead, Refusal>
    ensures { Reads bytes.now result }
{
    let found = find_fields(bytes);
    if reader_refuses(found, bytes.len()) {
        return Err(Refusal::Record);
    }
    Ok(RecordRead {
        length: found.end,
        call: found.fields.call(),
    })
}

// ---- writing

// The length of the record of a call's fields.
#[tactic(auto, using(crate::proofs::Turns::length_next, crate::proofs::Turns::body_done))]
fn record_length(fields: Fields) -> usize
    ensures { Length fields.0 result }
{
    let values = fields.0;
    let mut length: usize = 2;
    for (bit, value) in values.iter().enumerate() {
        let field = Field { bit };
        length += field.size_written(values[0], *value);
    }
    length
}

// The kind is none, a field foreign to it is not zero, or there is too little room.
fn writer_refuses(fields: Fields, length: usize, room: usize) -> bool
    ensures { result ≡ (not (is_kind (get_or fields.0 0 0)) || foreign (kind_at (get_or fields.0 0 0)) 0 fields.0 || nat_lt room length) }
{
    !fields::is_kind(fields.kind()) || fields.any_foreign(fields.kind()) || room < length
}

// A number in all of some bytes, low byte first.
#[tactic(auto, using(crate::proofs::Turns::low_bytes))]
fn put_number(bytes: &mut [u8], number: u32)
    requires { length bytes.old ≤ 4 }
    ensures { bytes.new ≡ bytes_of (length bytes.old) number }
{
    let width = bytes.len();
    bytes.copy_from_slice(&number.to_le_bytes()[..width]);
}

// The fields of a record, past the map.
// By position: a loop that splits off each field by `split_at_mut` and goes on with the rest was tried, and its proof didn't close.
#[tactic(auto, using(crate::proofs::Turns::length_next, crate::proofs::Turns::sets_next, crate::proofs::Turns::body_done, crate::proofs::Turns::part_put))]
fn put_fields(buffer: &mut [u8], fields: Fields)
    requires { 2 + length (body (kind_at (get_or fields.0 0 0)) 0 widths fields.0) ≤ length buffer.old }
    ensures { buffer.new ≡ sets buffer.old 2 (body (kind_at (get_or fields.0 0 0)) 0 widths fields.0) }
{
    let values = fields.0;
    let mut at: usize = 2;
    for (bit, value) in values.iter().enumerate() {
        let field = Field { bit };
        let size = field.size_written(values[0], *value);
        put_number(&mut buffer[at..at + size], *value);
        at += size;
    }
}

// Writes the call's record to the front of the buffer; where it refuses, nothing is stored.
pub fn write(call: CallRecord, buffer: &mut [u8]) -> Answer
    ensures { Writes call buffer.old result buffer.new }
{
    let fields = Fields::from(call);
    let length = record_length(fields);
    if writer_refuses(fields, length, buffer.len()) {
        return Err(Refusal::Record);
    }
    put_number(&mut buffer[..2], fields.map(fields.kind()));
    put_fields(buffer, fields);
    Ok(length as u32)
}
