// Set-up: directions, profiles, and what every addition shares. Each promise is an equation with the rules, whatever the cells hold.
#![tactic(auto)]

ghost use Rattle.std.specs.Prelude.{◌≡◌, ◌||◌, not, ◌^◌, nat_lt, nat_le, ◌==◌, length};
ghost use Rattle.std.specs.Int.Count.{ones};
ghost use Rattle.rules.specs.Calls.{AddDirection, AddProfile};
ghost use Rattle.rules.specs.Setup.{direction_taken};
ghost use Rattle.cells.specs.View.{book_of};
ghost use Rattle.answers.specs.Promises.{Judged, Answers};
ghost use Rattle.tables.specs.Rows.{direction_of};
ghost use Rattle.setup.specs.Work.{clashes, same_operators};

use cells::Book;
use rules::{Answer, Refusal};
use tables::Direction;

// ---- what the additions share
#[tactic(auto, unfolding(cells::specs::View::book_of))]
pub fn setup_shut(book: &Book) -> bool
    ensures { result ≡ (book_of book.now).started }
{
    cells::is_started(book)
}

// ---- directions
fn direction_field(direction: Direction) -> bool
    ensures { result ≡ (nat_lt 6 direction.out || nat_lt 6 direction.into || direction.out == direction.into || not (direction.model == 1 || direction.model == 4)) }
{
    if direction.out > 6 || direction.into > 6 {
        return true;
    }
    direction.out == direction.into || !matches!(direction.model, 1 | 4)
}

// Two fields of three, so no derived equality.
fn same_operators(standing: Direction, out: u32, into: u32) -> bool
    ensures { result ≡ same_operators (direction_of standing) out into }
{
    standing.out == out && standing.into == into
}

// The same operators in order, or in opposite order under the other model.
#[tactic(auto, unfolding(crate::specs::Work::clashes))]
fn direction_clashes(standing: Direction, direction: Direction) -> bool
    ensures { result ≡ clashes direction.out direction.into direction.model (direction_of standing) }
{
    if same_operators(standing, direction.out, direction.into) {
        return true;
    }
    same_operators(standing, direction.into, direction.out) && standing.model != direction.model
}

fn direction_taken(book: &Book, direction: Direction) -> bool
    ensures { result ≡ direction_taken direction.out direction.into direction.model (book_of book.now).directions }
{
    let rows = cells::directions(book);
    rows.iter()
        .any(|row| direction_clashes(Direction::from(*row), direction))
}

fn direction_verdict(book: &Book, direction: Direction) -> Result<(), Refusal>
    ensures { Judged (book_of book.now) (AddDirection direction.out direction.into direction.model) result }
{
    if direction_field(direction) {
        return Err(Refusal::Field);
    }
    if setup_shut(book) {
        return Err(Refusal::SetupShut);
    }
    if direction_taken(book, direction) {
        return Err(Refusal::Taken);
    }
    if cells::DIRECTIONS.is_full(book) {
        return Err(Refusal::Full);
    }
    Ok(())
}

pub fn add_direction(book: &mut Book, direction: Direction) -> Answer
    ensures { Answers book.old (AddDirection direction.out direction.into direction.model) result book.new }
{
    direction_verdict(book, direction)?;
    let row = [direction.out, direction.into, direction.model];
    Ok(stores::place_row(book, &cells::DIRECTIONS, &row))
}

// ---- profiles
fn profile_field(map: u32) -> bool
    ensures { result ≡ nat_lt (ones map) 2 }
{
    u32::count_ones(map) < 2
}

// A bit of a direction that is not there.
fn profile_unknown(book: &Book, map: u32) -> bool
    ensures { result ≡ nat_le (2 ^ length (book_of book.now).directions) map }
{
    let count = cells::DIRECTIONS.count(book);
    (map >> count) != 0
}

fn profile_verdict(book: &Book, map: u32) -> Result<(), Refusal>
    ensures { Judged (book_of book.now) (AddProfile map) result }
{
    if profile_field(map) {
        return Err(Refusal::Field);
    }
    if setup_shut(book) {
        return Err(Refusal::SetupShut);
    }
    if profile_unknown(book, map) {
        return Err(Refusal::Unknown);
    }
    if cells::PROFILES.is_full(book) {
        return Err(Refusal::Full);
    }
    Ok(())
}

pub fn add_profile(book: &mut Book, map: u32) -> Answer
    ensures { Answers book.old (AddProfile map) result book.new }
{
    profile_verdict(book, map)?;
    let row = [map];
    Ok(stores::place_row(book, &cells::PROFILES, &row))
}
