// The state of the program `dayrun`, what comes next there, and the steps that take no record.
#![tactic(auto)]

mod unread;

ghost use Rattle.std.specs.Prelude.{◌≡◌, ◌<◌, length};
ghost use Rattle.dayrun_progress.specs.States.{answerable, ready, next_of, start_buffers, wrote_buffers, ReadsMore};

use arrayvec::ArrayVec;
use std::io::Read;
pub use unread::Unread;

// The position of the next record, and how far the program is.
// `ended` says that the input has ended, `done` that the program has: a 1 was answered, or the lines couldn't be written.
#[derive(Clone, Copy)]
pub struct Progress {
    pub position: u64,
    pub ended: bool,
    pub done: bool,
}

// The input that is read, the lines that wait to be written, and how far the program is with them.
#[derive(Drop)]
pub struct Buffers<const ROOM: usize, const TEXT: usize> {
    pub unread: Unread<ROOM>,
    pub lines: ArrayVec<u8, TEXT>,
    pub progress: Progress,
}

// What the program does next: takes a record and answers it, writes the collected lines, reads, or ends. A closure for the step would be
// no plainer: the promises name the step, and `rt ci` refuses one that is handed out.
#[derive(Clone, Copy)]
pub enum Next {
    Take,
    Write,
    Read,
    End,
}

impl<const ROOM: usize, const TEXT: usize> Buffers<ROOM, TEXT> {
    // Nothing is read yet, and the first position is 1.
    pub fn start() -> Self
        ensures { result ≡ start_buffers }
    {
        Buffers {
            unread: Unread::new(),
            lines: ArrayVec::new(),
            progress: Progress {
                position: 1,
                ended: false,
                done: false,
            },
        }
    }

    // The next record can be answered: any bytes once the input has ended, else a record that is settled.
    #[tactic(auto, unfolding(crate::specs::States::answerable))]
    fn is_answerable(&self) -> bool
        ensures { result ≡ answerable self.now.progress.ended self.now.unread }
    {
        let bytes = self.unread.bytes();
        if self.progress.ended {
            !bytes.is_empty()
        } else {
            dayrun_settled::is_settled(bytes)
        }
    }

    // The next record is answered now: the program goes on, and a line more fits the text.
    fn is_ready(&self) -> bool
        ensures { result ≡ ready self.now }
    {
        !self.progress.done
            && self.lines.remaining_capacity() >= lines::LINE
            && self.is_answerable()
    }

    // It reads only where nothing is settled and nothing is collected.
    #[tactic(auto, unfolding(crate::specs::States::next_of))]
    pub fn what_next(&self) -> Next
        ensures { result ≡ next_of self.now }
    {
        if self.is_ready() {
            Next::Take
        } else if !self.lines.is_empty() {
            Next::Write
        } else if self.progress.done || self.progress.ended {
            Next::End
        } else {
            Next::Read
        }
    }

    // The collected lines were written. Where they couldn't be, the program is done.
    pub fn wrote(&mut self, written: bool)
        ensures { self.new ≡ wrote_buffers self.old written }
    {
        self.lines.clear();
        self.progress.done = self.progress.done || !written;
    }

    // Reads once. No byte is the end of the input.
    pub fn read_more<R: Read>(&mut self, reader: &mut R)
        requires { length self.old.unread < ROOM }
        ensures { ReadsMore self.old self.new }
    {
        let count = self.unread.read_more(reader);
        self.progress.ended = count == 0;
    }
}
