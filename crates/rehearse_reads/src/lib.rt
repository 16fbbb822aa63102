// The reads that a line makes, and what each line is answered.
#![tactic(auto)]

ghost use Rattle.std.specs.Prelude.{◌≡◌};
ghost use Rattle.rules.specs.Said.{said_refusal};
ghost use Rattle.rehearse_text.specs.Rows.{numbers_in};
ghost use Rattle.rehearse_reads.specs.LineReads.{ReadsLine};
ghost use Rattle.rehearse_reads.specs.Rows.{of_call, of_left, of_right, of_confirmed, numbers_of};

use answers::{LeftRead, RightRead};
use cells::Book;
use day::Day;
use rehearse_lines::{CallKind, CapacityKind, ReadKind};
use rehearse_numbers::kept;
use rehearse_text::Numbers;
use rules::{Answer, Hour, Refusal};

#[derive(Clone, Copy)]
pub enum Reply {
    // With the day that was opened.
    Opening(Result<(u32, Day), Refusal>),
    Call(CallKind, Answer),
    Left(Result<LeftRead, Refusal>),
    Right(Result<RightRead, Refusal>),
    Confirmed(Result<[u32; 5], Refusal>),
}

// By the kind of the line.
pub fn read(book: &Book, kind: ReadKind, given: [u64; 10]) -> Reply
    ensures { ReadsLine book.now kind given result }
{
    let [first, second, third, ..] = given;
    match kind {
        ReadKind::Left(of) => {
            let (number, hour) = (kept(first), Hour(kept(second)));
            Reply::Left(match of {
                CapacityKind::Direction => daybook::left_of_direction(book, number, hour),
                CapacityKind::Profile => daybook::left_of_profile(book, number, hour),
            })
        }
        ReadKind::Right => Reply::Right(daybook::right_at(book, kept(first))),
        ReadKind::Confirmed => {
            let (out, into) = (kept(second), kept(third));
            Reply::Confirmed(daybook::confirmed_of(book, kept(first), out, into))
        }
    }
}

// ---- the numbers of a reply

// Here and below not `From`, as in `answers::numbers`: each clause would become a ghost member that says the same equation.
fn of_call(answer: Answer) -> Numbers
    ensures { numbers_in result ≡ of_call answer }
{
    let said = daybook::numbers(answer);
    Numbers::from([
        u64::from(said.number),
        u64::from(said.first),
        u64::from(said.second),
    ])
}

// The number of a refusal, which stands before zeros in a read.
fn number_of(refusal: Refusal) -> u64
    ensures { result ≡ (said_refusal refusal).number }
{
    u64::from(daybook::numbers(Err(refusal)).number)
}

fn of_left(read: Result<LeftRead, Refusal>) -> Numbers
    ensures { numbers_in result ≡ of_left read }
{
    match read {
        Ok(read) => Numbers::from([0, u64::from(read.left), u64::from(read.shortfall)]),
        Err(refusal) => Numbers::from([number_of(refusal), 0, 0]),
    }
}

fn of_right(read: Result<RightRead, Refusal>) -> Numbers
    ensures { numbers_in result ≡ of_right read }
{
    match read {
        Ok(read) => {
            let [first, second, third, fourth, fifth] = read.mw;
            Numbers::from([
                0,
                u64::from(read.holder),
                u64::from(read.direction),
                u64::from(read.session.0),
                u64::from(first),
                u64::from(second),
                u64::from(third),
                u64::from(fourth),
                u64::from(fifth),
            ])
        }
        Err(refusal) => Numbers::from([number_of(refusal), 0, 0, 0, 0, 0, 0, 0, 0]),
    }
}

fn of_confirmed(read: Result<[u32; 5], Refusal>) -> Numbers
    ensures { numbers_in result ≡ of_confirmed read }
{
    match read {
        Ok(mw) => {
            let [first, second, third, fourth, fifth] = mw;
            Numbers::from([
                0,
                u64::from(first),
                u64::from(second),
                u64::from(third),
                u64::from(fourth),
                u64::from(fifth),
            ])
        }
        Err(refusal) => Numbers::from([number_of(refusal), 0, 0, 0, 0, 0]),
    }
}

impl Reply {
    // 0 for granted or the number of the refusal, and what it names.
    pub fn numbers(self) -> Numbers
        ensures { numbers_in result ≡ numbers_of self }
    {
        match self {
            Reply::Opening(answer) => of_call(answer.map(|(detail, _)| detail)),
            Reply::Call(_, answer) => of_call(answer),
            Reply::Left(read) => of_left(read),
            Reply::Right(read) => of_right(read),
            Reply::Confirmed(read) => of_confirmed(read),
        }
    }
}
