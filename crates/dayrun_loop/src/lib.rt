// The loop of the program `dayrun`: it reads its input and writes its output, standard input and standard output, as `dayrun_progress` and `stream` say.
#![tactic(auto)]

ghost use Rattle.std.specs.Prelude.{◌≡◌};
ghost use Rattle.cells.specs.View.{book_of};
ghost use Rattle.dayrun_records.specs.Records.{start_book};
ghost use Rattle.dayrun_loop.specs.Steps.{Wrote, Loops, Answered};

use cells::Book;
use dayrun_progress::Next;
use std::io::{Read, Write};

// How many bytes of the input are unread at most.
const INPUT: usize = 65536;

// How many bytes of lines are collected at most.
const TEXT: usize = 4096;

type Buffers = dayrun_progress::Buffers<INPUT, TEXT>;

// Writes the collected lines.
fn write_lines<W: Write>(writer: &mut W, buffers: &mut Buffers)
    ensures { Wrote buffers.old buffers.new }
{
    let written = writer.write_all(buffers.lines.as_slice()).is_ok();
    buffers.wrote(written);
}

// Whether the loop came to its end. A proved loop has to end, and nothing says that the input does: it takes a number of turns that no input uses up.
fn answer_all<R: Read, W: Write>(reader: &mut R, writer: &mut W, book: &mut Book) -> bool
    requires { book_of book.old ≡ start_book }
    ensures { Loops INPUT TEXT result book.new }
{
    let mut buffers = Buffers::start();
    for _turn in 0..u64::MAX {
        let next = buffers.what_next();
        match next {
            Next::Take => stream::answer_next(book, &mut buffers),
            Next::Write => write_lines(writer, &mut buffers),
            Next::Read => buffers.read_more(reader),
            Next::End => return true,
        }
    }
    false
}

// The program: opens a book, and answers the records of the input on it. Whether it came to its end.
pub fn answer_input<R: Read, W: Write>(reader: &mut R, writer: &mut W) -> bool
    ensures { Answered INPUT TEXT result }
{
    let mut book = [0u32; cells::CELLS];
    dayrun_records::open_book(&mut book);
    answer_all(reader, writer, &mut book)
}
