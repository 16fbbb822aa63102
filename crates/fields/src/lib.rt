// The fields of a call record: the tables of their widths and of the kinds, a call as its fields, the map of a kind, and the tests of a map.
#![tactic(auto)]

ghost use Rattle.std.specs.Prelude.{◌≡◌, ◌||◌, ◌&&◌, not, ◌<◌, ◌==◌, get_or};
ghost use Rattle.rules.specs.Basics.{bit, has};
ghost use Rattle.rules.specs.Records.{fields_of, call_of, kind_at, is_kind, stands, map_for, foreign};
ghost use Rattle.fields.specs.Fields.{FieldsFit, CallFits, kind_maps, Size, map_refused};

use rules::{CallRecord, Hour, Session, has_bit};

// ---- kinds

// The bits of a kind: those that always stand, and those of its MW, which stand where the MW is not 0.
#[derive(Clone, Copy)]
struct KindMaps {
    always: u32,
    mws: u32,
}

// Bit 0 is rightmost. By the kind's number: each function of this crate promises something for any number, and would make an enum from it.
#[tactic(auto, using(crate::proofs::KindBits::no_kind_lem), unfolding(crate::specs::Fields::among_bits, rules::specs::Basics::map_of, rules::specs::Basics::has, rules::specs::Records::kinds))]
fn maps_of(kind: u32) -> KindMaps
    ensures { result ≡ kind_maps (kind_at kind) }
{
    match kind {
        1 => KindMaps {
            always: 0b100_0000_0001_0011,
            mws: 0b000_0010_0000_0000,
        },
        2 => KindMaps {
            always: 0b100_0000_0010_0011,
            mws: 0b000_0010_0000_0000,
        },
        3 => KindMaps {
            always: 0b000_0000_0101_0111,
            mws: 0b011_1110_0000_0000,
        },
        4 => KindMaps {
            always: 0b000_0001_1000_1111,
            mws: 0b011_1110_0000_0000,
        },
        5 => KindMaps {
            always: 0b000_0000_0101_0011,
            mws: 0b000_0000_0000_0000,
        },
        _ => KindMaps { always: 0, mws: 0 },
    }
}

pub fn is_kind(kind: u32) -> bool
    ensures { result ≡ is_kind kind }
{
    (1..=5).contains(&kind)
}

// ---- one field

// The width of each field in bytes, by its bit.
const WIDTHS: [usize; 15] = [1, 2, 1, 1, 1, 1, 1, 2, 1, 2, 2, 2, 2, 2, 1];

// A field by its bit in the map.
#[derive(Clone, Copy)]
pub struct Field {
    pub bit: usize,
    ghost within: { bit < 15 },
}

impl Field {
    // How many bytes it takes: its width where it stands, else none.
    fn size(self, stands: bool) -> usize
        ensures { Size self.bit stands result }
    {
        if stands { WIDTHS[self.bit] } else { 0 }
    }

    // How many bytes it takes in a record with the map.
    pub fn size_read(self, map: u32) -> usize
        ensures { Size self.bit (bit map self.bit) result }
    {
        self.size(has_bit(map, self.bit as u32))
    }

    // How many bytes it takes in a record of the kind.
    pub fn size_written(self, kind: u32, value: u32) -> usize
        ensures { Size self.bit (stands (kind_at kind) self.bit value) result }
    {
        self.size(self.is_written(kind, value))
    }

    // It is in a record of the kind.
    #[tactic(auto, using(std::proofs::lemmas::Bool::Decides::nat_tests, crate::proofs::KindBits::marked), unfolding(rules::specs::Records::stands))]
    fn is_written(self, kind: u32, value: u32) -> bool
        ensures { result ≡ stands (kind_at kind) self.bit value }
    {
        let maps = maps_of(kind);
        has_bit(maps.always, self.bit as u32) || has_bit(maps.mws, self.bit as u32) && value != 0
    }

    // It is foreign to the kind, and not zero.
    #[tactic(auto, using(std::proofs::lemmas::Bool::Decides::nat_tests, crate::proofs::KindBits::marked))]
    fn is_foreign(self, kind: u32, value: u32) -> bool
        ensures { result ≡ (not (has self.bit (kind_at kind).always || has self.bit (kind_at kind).mws) && not (value == 0)) }
    {
        let maps = maps_of(kind);
        !(has_bit(maps.always, self.bit as u32) || has_bit(maps.mws, self.bit as u32)) && value != 0
    }
}

// ---- the fields of a call

// The value of each field by its bit; 0 where the field is not there.
#[derive(Clone, Copy, PartialEq, Eq)]
pub struct Fields(pub [u32; 15]);

impl From<CallRecord> for Fields {
    ghost from_gives = { λ call fields. (fields.0 ≡ fields_of call) × CallFits call };

    fn from(call: CallRecord) -> Fields {
        let mw = call.mw;
        Fields([
            call.kind as u32,
            call.time as u32,
            call.party as u32,
            call.other as u32,
            call.direction as u32,
            call.profile as u32,
            call.session.0 as u32,
            call.right as u32,
            call.side as u32,
            mw[0] as u32,
            mw[1] as u32,
            mw[2] as u32,
            mw[3] as u32,
            mw[4] as u32,
            call.hour.0 as u32,
        ])
    }
}

impl Fields {
    pub fn kind(self) -> u32
        ensures { result ≡ get_or self.0 0 0 }
    {
        self.0[0]
    }

    // Not `From`, which asks nothing of its caller. An invariant of `Fields` can't ask it either: fields that don't fit have a map, by which they are refused.
    #[tactic(auto, unfolding(rules::specs::Records::widths, rules::specs::Records::call_of))]
    pub fn call(self) -> CallRecord
        requires { FieldsFit self.0 }
        ensures { result ≡ call_of self.0 }
    {
        let values = self.0;
        CallRecord {
            kind: values[0] as u8,
            time: values[1] as u16,
            party: values[2] as u8,
            other: values[3] as u8,
            direction: values[4] as u8,
            profile: values[5] as u8,
            session: Session(values[6] as u8),
            right: values[7] as u16,
            side: values[8] as u8,
            mw: [
                values[9] as u16,
                values[10] as u16,
                values[11] as u16,
                values[12] as u16,
                values[13] as u16,
            ],
            hour: Hour(values[14] as u8),
        }
    }

    // The map of a record of the kind with these fields.
    pub fn map(self, kind: u32) -> u32
        ensures { result ≡ map_for kind self.0 }
    {
        let values = self.0;
        let mut map: u32 = 0;
        for (bit, value) in values.iter().enumerate() {
            let field = Field { bit };
            map += (field.is_written(kind, *value) as u32) << bit;
        }
        map
    }

    // A field that is foreign to the kind is not zero. `any` was tried: in its closure nothing says that the bit is a field's, and its proof didn't close.
    #[tactic(auto, using(std::proofs::lemmas::Bool::Decides::nat_tests, crate::proofs::Turns::foreign_next, crate::proofs::Turns::foreign_done))]
    pub fn any_foreign(self, kind: u32) -> bool
        ensures { result ≡ foreign (kind_at kind) 0 self.0 }
    {
        let values = self.0;
        for (bit, value) in values.iter().enumerate() {
            let field = Field { bit };
            if field.is_foreign(kind, *value) {
                return true;
            }
        }
        false
    }

    // The map has bit 15, the kind is none, or the map is not that of these fields.
    pub fn map_refused(self, map: u32) -> bool
        ensures { result ≡ map_refused map self.0 }
    {
        has_bit(map, 15) || !is_kind(self.kind()) || map != self.map(self.kind())
    }
}
