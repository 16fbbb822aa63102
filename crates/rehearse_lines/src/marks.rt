// The patterns of the lines, and what a mark of a pattern stands for.
use crate::kinds::CallKind::{Bid, Direction, Match, Nominate, Offer, Party, Profile};
use crate::kinds::Kind::{Call, Open, Read};
use crate::kinds::ReadKind::{Confirmed, Left, Right};
use crate::kinds::{CapacityKind, Kind};
use rehearse_numbers::Width;
use std::fmt;

// 1, 2 and 4 stand for a number of so many bytes, ? for MW that may be left out, * for any count of directions, @ for a party code and / for the word
// direction or profile. A comma and a hyphen stand for themselves, a colon for itself or for no MW at all.
// The patterns are strings, so that they read as the lines that they match. A party's code and the word profile come into the kind with their marks, in place of
// the zeros and of the direction that it begins with: kinds without them, for the patterns alone, would name every kind again.
pub const PATTERNS: [(Kind, &str); 11] = [
    (Open, "open 2 - 1 - 1"),
    (Call(Direction), "direction 1 to 1 , model 1"),
    (Call(Profile), "profile of directions *"),
    (Call(Party([0; 16])), "party @ , access 1"),
    (
        Call(Offer(CapacityKind::Direction)),
        "offer at 4 , / 1 , hour 1 : 2",
    ),
    (
        Call(Bid),
        "bid at 4 , party 1 , direction 1 , session 1 : ? ? ? ? ?",
    ),
    (
        Call(Nominate),
        "nominate at 4 , party 1 , other 1 , right 2 , side 1 : ? ? ? ? ?",
    ),
    (Call(Match), "match at 4 , direction 1 , session 1"),
    (Read(Left(CapacityKind::Direction)), "left of / 1 , hour 1"),
    (Read(Right), "right 2"),
    (Read(Confirmed), "confirmed of right 2 , out 1 , in 1"),
];

#[derive(Clone, Copy)]
pub enum Mark {
    Word(&'static str),
    Comma,
    Hyphen,
    Colon,
    Number(Width),
    Mw,
    Directions,
    Code,
    DirectionOrProfile,
}

impl From<&'static str> for Mark {
    fn from(mark: &'static str) -> Mark {
        match mark.as_bytes() {
            b"," => Mark::Comma,
            b"-" => Mark::Hyphen,
            b":" => Mark::Colon,
            b"1" => Mark::Number(Width::OneByte),
            b"2" => Mark::Number(Width::TwoBytes),
            b"4" => Mark::Number(Width::FourBytes),
            b"?" => Mark::Mw,
            b"*" => Mark::Directions,
            b"@" => Mark::Code,
            b"/" => Mark::DirectionOrProfile,
            _ => Mark::Word(mark),
        }
    }
}

impl fmt::Display for Mark {
    ghost use Rattle.std.specs.Prelude.{Some};
    ghost use Rattle.rehearse_lines.specs.Reasons.{mark_text};

    ghost output = { λ mark. Some (mark_text mark) };

    fn fmt<W: fmt::Write>(&self, f: &mut fmt::Formatter<W>) -> fmt::Result {
        f.write_str(match self {
            Mark::Word(word) => word,
            Mark::Comma => "a comma",
            Mark::Hyphen => "a hyphen",
            Mark::Colon => "a colon",
            Mark::Number(_) | Mark::Mw | Mark::Directions => "a number",
            Mark::Code => "a code of 16 characters",
            Mark::DirectionOrProfile => "direction or profile",
        })
    }
}
