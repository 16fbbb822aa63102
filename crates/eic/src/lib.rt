// Party codes: sixteen characters, of which the last is a check on the others.
#![tactic(auto)]

ghost use Rattle.std.specs.Prelude.{◌≡◌, ◌-◌, ◌*◌, ◌%◌, ◌≤◌, ◌<◌, true, false, length, MatchOption};
ghost use Rattle.rules.specs.Codes.{char_value, all_chars, weighted, is_code};

// The third character says what a code names: X a party.
const PARTY: u8 = b'X';

// What a byte is worth in a code; none where it is no character of one.
#[tactic(auto, using(std::proofs::lemmas::Bool::Decides::nat_tests), unfolding(rules::specs::Codes::char_value, rules::specs::Basics::between))]
fn char_value(byte: u8) -> Option<u8>
    ensures { MatchOption result (char_value byte ≡ 37) (λ value. (value ≡ char_value byte) × (value < 37)) }
{
    match byte {
        b'0'..=b'9' => Some(byte - b'0'),
        b'A'..=b'Z' => Some(byte - b'A' + 10),
        b'-' => Some(36),
        _ => None,
    }
}

// A character's part of the weighted sum.
fn weighed(weight: u32, value: u8) -> u32
    requires { (weight ≤ 16) × (value < 37) }
    ensures { (result ≡ weight * value) × (result ≤ 576) }
{
    weight * u32::from(value)
}

// The first character has the weight 16, the next 15, and so on; none where a byte is no character.
#[tactic(auto, using(crate::proofs::Codes::turns))]
fn weighted_sum(bytes: &[u8]) -> Option<u32>
    requires { length bytes.now ≤ 16 }
    ensures { MatchOption result (all_chars bytes.now ≡ false) (λ sum. (all_chars bytes.now ≡ true) × (sum ≡ weighted 16 bytes.now)) }
{
    let mut sum: u32 = 0;
    for (place, byte) in bytes.iter().enumerate() {
        let value = char_value(*byte)?;
        sum += weighed(16 - place as u32, value);
    }
    Some(sum)
}

// The value that the last character must have, by the weighted sum of the others.
fn check_value(sum: u32) -> u32
    ensures { result ≡ 36 - (sum - 1) % 37 }
{
    36 - sum.saturating_sub(1) % 37
}

#[tactic(auto, using(crate::proofs::Codes::characters_of_code, crate::proofs::Codes::no_code))]
pub fn is_party_code(code: [u8; 16]) -> bool
    ensures { result ≡ is_code code }
{
    let Some(sum) = weighted_sum(&code[..15]) else {
        return false;
    };
    let Some(last) = char_value(code[15]) else {
        return false;
    };
    code[2] == PARTY && u32::from(last) == check_value(sum) && last != 36
}
