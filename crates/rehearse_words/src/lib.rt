// What is said of a line: its answer in numbers and in words, or why it has none; and the count of lines.
#![tactic(auto)]

ghost use Rattle.std.specs.Prelude.{◌≡◌, ◌≤◌, ◌∷◌, ◌++◌, [], length, OnOk};
ghost use Rattle.std.specs.Io.KnownBytes.{Appends};
ghost use Rattle.std.specs.List.{prefix_len};
ghost use Rattle.rehearse_text.specs.Rows.{numbers_in};
ghost use Rattle.rehearse_reads.specs.Rows.{numbers_of};
ghost use Rattle.rehearse_words.specs.Texts.{is_printable, shown, is_other, mark_text, answer_line, unfit_line};

mod counts;
mod words;

pub use counts::Counts;
use rehearse_lines::{Request, Unfit};
use rehearse_reads::Reply;
use std::io;
use std::io::Write;
use words::InWords;

fn is_printable(byte: u8) -> bool
    ensures { result ≡ is_printable byte }
{
    (b' '..=b'~').contains(&byte)
}

fn printable_in(text: &[u8]) -> usize
    ensures count { result ≡ prefix_len is_printable text.now }
    ensures within { result ≤ length text.now }
{
    text.iter().take_while(|byte| is_printable(**byte)).count()
}

// A byte that is no printable ASCII is shown as a question mark.
fn write_shown<W: Write>(out: &mut W, line: &[u8]) -> io::Result<()>
    ensures { OnOk result (Appends (W.contents out.old) (W.contents out.new) (shown line.now)) }
{
    let mut rest = line;
    loop {
        let (clear, other) = rest.split_at(printable_in(rest));
        out.write_all(clear)?;
        let [_, after @ ..] = other else {
            return Ok(());
        };
        out.write_all(b"?")?;
        rest = after;
    }
}

// A comment or an empty line, as it is.
pub fn write_passed_on<W: Write>(out: &mut W, line: &[u8]) -> io::Result<()>
    ensures { OnOk result (Appends (W.contents out.old) (W.contents out.new) (line.now ++ 10 ∷ [])) }
{
    out.write_all(line)?;
    out.write_all(b"\n")
}

// Numbers were expected, and the reply has others.
#[tactic(auto, using(rehearse_text::proofs::Same::same_rows))]
pub fn differs(request: &Request, reply: Reply) -> bool
    ensures { result ≡ is_other (numbers_in request.now.expected) (numbers_of reply) }
{
    !request.expected.is_empty() && request.expected != reply.numbers()
}

// What stands behind a line whose numbers are others than were expected.
fn mark(differs: bool) -> &'static str
    ensures { result.now ≡ mark_text differs }
{
    if differs { "  <== differs" } else { "" }
}

pub fn write_answered<W: Write>(
    out: &mut W,
    line: &[u8],
    request: &Request,
    reply: Reply,
) -> io::Result<()>
    ensures { OnOk result (Appends (W.contents out.old) (W.contents out.new) (answer_line line.now (numbers_in request.now.expected) reply)) }
{
    let numbers = reply.numbers();
    let words = InWords(reply);
    let mark = mark(differs(request, reply));
    write_shown(out, line)?;
    writeln!(out, " -> {numbers}  {words}{mark}")
}

// A line that is too long is not shown.
pub fn write_unfit<W: Write>(out: &mut W, line: &[u8], unfit: Unfit<'_>) -> io::Result<()>
    ensures { OnOk result (Appends (W.contents out.old) (W.contents out.new) (unfit_line line.now unfit.entry)) }
{
    match unfit {
        Unfit::TooLong => writeln!(out, "-> {unfit}"),
        _ => {
            write_shown(out, line)?;
            writeln!(out, " -> {unfit}")
        }
    }
}
