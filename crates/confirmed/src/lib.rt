// The read of the confirmed MW of a pair.
#![tactic(auto)]

ghost use Rattle.std.specs.Prelude.{◌≡◌};
ghost use Rattle.rules.specs.Basics.{five};
ghost use Rattle.rules.specs.Nominations.{confirmed_of};
ghost use Rattle.answers.specs.Promises.{ReadsConfirmed};
ghost use Rattle.confirmed.specs.Work.{confirmed_in};

use cells::Book;
use pairs::PairKey;
use rules::Refusal;
use totals::PairLower;

// The confirmed MW of the lower side m, where the right has `held` and the sum of the lower sides is `total`.
fn confirmed(held: u32, total: u64, m: u32) -> u32
    ensures { result ≡ confirmed_of held total m }
{
    if (held as u64) < total {
        return (m as u64 * held as u64 / total) as u32;
    }
    m
}

// The confirmed MW of a pair's lower sides in the five hours.
fn confirmed_five(held: [u32; 5], totals: [u64; 5], lower: [u32; 5]) -> [u32; 5]
    ensures { result ≡ five (confirmed_in held totals lower) }
{
    std::array::from_fn(|k| confirmed(held[k], totals[k], lower[k]))
}

// The confirmed MW of a pair.
pub fn confirmed_of(book: &Book, right: u16, out: u8, into: u8) -> Result<[u32; 5], Refusal>
    ensures { ReadsConfirmed book.now right out into result }
{
    let held = answers::right_in(book, right).ok_or(Refusal::Unknown)?;
    let key = PairKey {
        right: right as u32,
        out: out as u32,
        into: into as u32,
    };
    let number = pairs::standing_pair(book, key).ok_or(Refusal::Unknown)?;
    if !tables::is_matched(book, held.direction, held.session) {
        return Err(Refusal::Cycle);
    }
    let row = &cells::pairs(book)[number as usize];
    let totals = totals::sums_of(book, right as u32);
    Ok(confirmed_five(held.mw, totals, PairLower::of_row(row).lower))
}
