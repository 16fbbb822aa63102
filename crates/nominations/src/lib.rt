// Nominations. A nomination is checked whole before anything is stored.
#![tactic(auto)]

ghost use Rattle.std.specs.Prelude.{◌≡◌};
ghost use Rattle.answers.specs.Promises.{Answers};
ghost use Rattle.nomination_tests.specs.Named.{nominate_of};
ghost use Rattle.nominations.specs.Work.{key_of, Cleared, JudgedNomination, Placed};

use cells::Book;
use nomination_tests::NominationCall;
use pairs::PairKey;
use rules::{Answer, Refusal, Side};

// What a nomination that nothing is against finds: its side, the MW of its right, and its pair, which may be a new one.
#[derive(Clone, Copy)]
struct Entry {
    side: Side,
    held: [u32; 5],
    pair: Option<u32>,
}

// The pair of a nomination: its sender is the party of its side.
fn key_of(call: NominationCall, side: Side) -> PairKey
    ensures { result ≡ key_of call side }
{
    let (out, into) = match side {
        Side::Out => (call.sender, call.other),
        Side::In => (call.other, call.sender),
    };
    PairKey {
        right: call.right as u32,
        out: out as u32,
        into: into as u32,
    }
}

// ---- the verdict

// Where nothing is against the nomination, its entry.
fn nomination_verdict(book: &Book, call: NominationCall) -> Result<Entry, Refusal>
    ensures { JudgedNomination book.now call result }
{
    let side = Side::try_from(call.side)?;
    if capacity::out_of_range(call.time, call.mw) {
        return Err(Refusal::Field);
    }
    if answers::before_clock(book, call.time) {
        return Err(Refusal::Clock);
    }
    let named = nomination_tests::named_in(book, call).ok_or(Refusal::Unknown)?;
    answers::window_verdict(windows::nomination_timing(named.session, call.time))?;
    if named.lacking_hours(call.mw) {
        return Err(Refusal::Hours);
    }
    if named.no_access(side) {
        return Err(Refusal::Access);
    }
    if named.not_owner(call.sender, call.other) {
        return Err(Refusal::Owner);
    }
    let pair = pairs::entry_of(book, key_of(call, side))?;
    let held = named.right.mw;
    Ok(Entry { side, held, pair })
}

// ---- a granted nomination

// The stores of a granted nomination: its marks, after it took its place.
fn place_nomination(book: &mut Book, call: NominationCall, entry: Entry) -> u32
    requires { Cleared book.old call entry }
    ensures { Placed book.old call result book.new }
{
    let pair = pairs::take_pair(book, key_of(call, entry.side), entry.pair);
    pairs::write_side(book, pair, entry.side, call.mw);
    stores::set_clock(book, call.time);
    marks::marks(book, call.right, entry.held, entry.side)
}

pub fn nominate(book: &mut Book, call: NominationCall) -> Answer
    ensures { Answers book.old (nominate_of call) result book.new }
{
    let entry = nomination_verdict(book, call)?;
    Ok(place_nomination(book, call, entry))
}
