// The numbers of a line: what its digits mean, and which numbers a field holds.
#![tactic(auto)]

mod fields;

ghost use Rattle.std.specs.Prelude.{◌≡◌, ◌+◌, ◌-◌, ◌*◌, ◌<◌, ◌≤◌, ◌↔◌, IsNone, IfSome, length, fold};
ghost use Rattle.rehearse_numbers.specs.Decimal.{Read, digits_in, capped};

pub use fields::{Field, Width, fits, kept};

// 2^32, which stands for any number that is as large or larger.
const CAP: u64 = 4294967296;

// A number with one more digit behind it.
fn and_digit(number: u64, digit: u8) -> u64
    ensures { result ≡ capped (number * 10 + (digit - 48)) }
{
    let tens = number.saturating_mul(10);
    let ones = u64::from(digit.saturating_sub(b'0'));
    tens.saturating_add(ones).min(CAP)
}

// How many digits stand at the front.
fn digits_in(text: &[u8]) -> usize
    ensures count { result ≡ digits_in text.now }
    ensures within { result ≤ length text.now }
{
    text.iter().take_while(|byte| byte.is_ascii_digit()).count()
}

// The number that digits mean, one after the other.
fn number_of(digits: &[u8]) -> u64
    ensures { result ≡ fold (λ n b. capped (n * 10 + (b - 48))) 0 digits.now }
{
    digits
        .iter()
        .fold(0, |number, digit| and_digit(number, *digit))
}

// The number that the digits at the front mean, and what stands behind them; none where no digit stands there.
#[tactic(auto, using(crate::proofs::Decimals::read_front))]
pub fn leading_number(text: &[u8]) -> Option<(u64, &[u8])>
    ensures none { IsNone result ↔ (digits_in text.now ≡ 0) }
    ensures number { IfSome result (λ read. Read text.now read.0 read.1.now) }
    ensures shorter { IfSome result (λ read. length read.1.now < length text.now) }
{
    let count = digits_in(text);
    if count == 0 {
        return None;
    }
    let (digits, rest) = text.split_at(count);
    Some((number_of(digits), rest))
}
