// Reads a day of calls in words from standard input, and prints each line with its answer.
#![tactic(auto)]

use cells::Book;
use rehearse_lines::{Kind, Request};
use rehearse_reads::Reply;
use rehearse_text::{Line, Text};
use rehearse_words::Counts;
use std::io;
use std::io::{Read, Write};

// ---- output

// Collects the parts of a line, so that it is written at once. Where a part has no room, what came before it is written first, and then the part.
#[derive(Drop)]
struct Collected<'a, W> {
    out: &'a mut W,
    text: Text,
}

impl<W: Write> Write for Collected<'_, W> {
    fn write(&mut self, part: &[u8]) -> io::Result<usize> {
        self.write_all(part)?;
        Ok(part.len())
    }

    fn write_all(&mut self, part: &[u8]) -> io::Result<()> {
        if self.text.try_extend_from_slice(part).is_ok() {
            return Ok(());
        }
        self.flush()?;
        self.out.write_all(part)
    }

    // What can't be written is not kept.
    fn flush(&mut self) -> io::Result<()> {
        let written = self.out.write_all(&self.text);
        self.text.clear();
        written
    }
}

// ---- lines

fn reply(book: &mut Book, request: &Request) -> Reply {
    let given = request.given.values();
    match request.kind {
        Kind::Open => {
            let answer = rehearse_calls::open(book, given);
            Reply::Opening(answer.map(|detail| (detail, cells::day(book))))
        }
        Kind::Call(kind) => Reply::Call(kind, rehearse_calls::call(book, kind, given)),
        Kind::Read(kind) => rehearse_reads::read(book, kind, given),
    }
}

// Where the lines are printed and what came of that, the book, and the count of the lines.
#[derive(Drop)]
struct Rehearsal<'a, W> {
    out: Collected<'a, W>,
    printed: io::Result<()>,
    book: &'a mut Book,
    counts: Counts,
}

impl<'a, W: Write> Rehearsal<'a, W> {
    // Prints a line where all before it could be printed.
    fn print<F: FnOnce(&mut Collected<'a, W>) -> io::Result<()>>(&mut self, write: F)
        requires { F.IsAlwaysCallable write }
    {
        if self.printed.is_ok() {
            self.printed = write(&mut self.out).and_then(|()| self.out.flush());
        }
    }

    // Answers a line and prints it.
    fn answer(&mut self, line: &[u8]) {
        let line = rehearse_text::without_order_mark(line);
        match rehearse_lines::read(line, self.counts.has_opened()) {
            Ok(None) => self.print(|out| rehearse_words::write_passed_on(out, line)),
            Ok(Some(request)) => {
                let reply = reply(self.book, &request);
                self.counts
                    .add_answered(rehearse_words::differs(&request, reply));
                self.print(|out| rehearse_words::write_answered(out, line, &request, reply));
            }
            Err(unfit) => {
                self.counts.add_not_understood();
                self.print(|out| rehearse_words::write_unfit(out, line, unfit));
            }
        }
    }

    // A part of the input, up to a line's end or the end of what has come.
    fn take(&mut self, line: &mut Line, part: &[u8]) {
        let Some(last) = part.strip_suffix(b"\n") else {
            rehearse_text::keep(line, part);
            return;
        };
        rehearse_text::keep(line, last);
        self.answer(rehearse_text::without_return(line));
        line.clear();
    }

    // A proved loop has to end, and nothing says that the input does: it ends after a number of turns that no run uses up.
    fn answer_all<R: Read>(&mut self, input: &mut R) {
        let mut line = Line::new();
        let mut buffer = [0u8; 65536];
        for _ in 0..u64::MAX {
            // A read that fails ends the input.
            let count = input.read(&mut buffer).unwrap_or(0);
            for part in buffer[..count].split_inclusive(|byte| *byte == b'\n') {
                self.take(&mut line, part);
            }
            // Nothing more is read where a line couldn't be printed.
            if count == 0 || self.printed.is_err() {
                break;
            }
        }
        // A last line may have no end.
        if !line.is_empty() {
            self.answer(&line);
        }
    }

    // Nobody is told of a write that fails; the counts are printed in any case.
    fn print_counts(&mut self) {
        let counts = self.counts;
        let _counted = writeln!(self.out, "{counts}").and_then(|()| self.out.flush());
    }
}

fn main(rt: HostRuntime) {
    let mut book = [0u32; cells::CELLS];
    let mut rehearsal = Rehearsal {
        out: Collected {
            out: &mut io::writer(&rt),
            text: Text::new(),
        },
        printed: Ok(()),
        book: &mut book,
        counts: Counts::default(),
    };
    rehearsal.answer_all(&mut rt.reader());
    rehearsal.print_counts();
}
