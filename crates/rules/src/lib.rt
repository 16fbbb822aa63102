// The types that the day book's crates share. The rules of documents 01 and 02 over them stand in specs/, what follows from them in proofs/.
#![tactic(auto)]

ghost use Rattle.std.specs.Prelude.{◌≡◌};
ghost use Rattle.rules.specs.Basics.{bit};
ghost use Rattle.rules.specs.Sides.{ReadsSide};

// The last minute that the clock counts.
pub const LATEST: u32 = 2999;

// The most MW in an hour that a call can ask for or offer.
pub const MOST_MW: u16 = 9999;

// A session's number. Only the session rule turns it into an hour.
#[derive(Clone, Copy, PartialEq, Eq)]
pub struct Session(pub u8);

// An hour's position in the day, from 1.
#[derive(Clone, Copy, PartialEq, Eq)]
pub struct Hour(pub u8);

// Where a time stands to a window: before its opening, within it, at or after its end.
#[derive(Clone, Copy, PartialEq, Eq)]
pub enum Timing {
    Early,
    Within,
    Late,
}

// What is short in an hour: the bid's direction, or a profile that holds it, by number.
#[derive(Clone, Copy, PartialEq, Eq)]
pub enum CapacityOf {
    Direction,
    Profile(u8),
}

// A refusal by its trade word. They stand in the order in which they are asked.
#[derive(Clone, Copy, PartialEq, Eq)]
pub enum Refusal {
    Record,
    Date,
    Field,
    SetupShut,
    Clock,
    Unknown,
    Taken,
    TooEarly,
    TooLate,
    Hours,
    Access,
    Owner,
    Cycle,
    Full,
    Short(Hour, CapacityOf),
}

// The answer to a call: granted with its detail, or refused.
pub type Answer = Result<u32, Refusal>;

// An answer's number, 0 for granted, and its two details.
#[derive(Clone, Copy, PartialEq, Eq)]
pub struct ReplyNumbers {
    pub number: u8,
    pub first: u32,
    pub second: u32,
}

// The call of a record: its kind, 1 to 5, and its fields; a field that the kind lacks is 0.
// The kind is any byte, and every field is there: the writer promises a refusal for a kind or a foreign field that doesn't fit, and a narrower type couldn't hold them.
#[derive(Clone, Copy, PartialEq, Eq)]
pub struct CallRecord {
    pub kind: u8,
    pub time: u16,
    pub party: u8,
    pub other: u8,
    pub direction: u8,
    pub profile: u8,
    pub session: Session,
    pub right: u16,
    pub side: u8,
    pub mw: [u16; 5],
    pub hour: Hour,
}

// The side of a pair that a nomination sends: as the out party or as the in party.
#[derive(Clone, Copy, PartialEq, Eq)]
pub enum Side {
    Out,
    In,
}

// By its number in a call: any number but 0 and 1 is refused as a field.
impl TryFrom<u8> for Side {
    type Error = Refusal;

    ghost try_from_gives = { ReadsSide };

    fn try_from(number: u8) -> Result<Side, Refusal> {
        match number {
            0 => Ok(Side::Out),
            1 => Ok(Side::In),
            _ => Err(Refusal::Field),
        }
    }
}

// A bit of a map; past its 32 bits there are none.
pub fn has_bit(map: u32, at: u32) -> bool
    ensures { result ≡ bit map at }
{
    at < 32 && (map >> at) % 2 == 1
}
