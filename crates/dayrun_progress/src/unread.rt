// The bytes of the input that were read and not yet taken.
ghost use Rattle.std.specs.Prelude.{◌≡◌, ℕ, ◌<◌, ◌≤◌, List, [], length, drop, slice_range};
ghost use Rattle.dayrun_progress.specs.Input.{Brings};

use std::io::Read;
use std::marker::Model;

// Those of the buffer from `from` up to `to`.
#[derive(Drop)]
pub struct Unread<const ROOM: usize> {
    buffer: [u8; ROOM],
    from: usize,
    to: usize,
}

impl<const ROOM: usize> Model for Unread<ROOM> {
    ghost Value = { List ℕ };

    ghost view = { λ u. slice_range u.buffer u.from u.to };

    ghost invariant = { λ u. (u.from ≤ u.to) × (u.to ≤ length u.buffer) };
}

impl<const ROOM: usize> Unread<ROOM> {
    pub fn new() -> Self
        ensures { result ≡ [] }
    {
        Unread {
            buffer: [0; ROOM],
            from: 0,
            to: 0,
        }
    }

    pub fn bytes(&self) -> &[u8]
        ensures { result.now ≡ self.now }
    {
        let buffer = &self.buffer[..];
        &buffer[self.from..self.to]
    }

    // The first bytes are taken.
    pub fn take(&mut self, count: usize)
        requires { count ≤ length self.old }
        ensures { self.new ≡ drop count self.old }
    {
        self.from += count;
    }

    // Moves them to the front of the buffer, and reads once behind them. A read that fails brings nothing.
    pub fn read_more<R: Read>(&mut self, reader: &mut R) -> usize
        requires { length self.old < ROOM }
        ensures { Brings self.old result self.new }
    {
        let buffer = &mut self.buffer[..];
        buffer.copy_within(self.from..self.to, 0);
        self.to -= self.from;
        self.from = 0;
        let count = reader.read(&mut buffer[self.to..]).unwrap_or(0);
        self.to += count;
        count
    }
}
