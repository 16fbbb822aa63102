// A line and what is said of it, as they are collected.
use arrayvec::ArrayVec;

// Room for both.
pub const TEXT: usize = 1024;

pub type Text = ArrayVec<u8, TEXT>;
