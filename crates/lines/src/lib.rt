// The lines that the program `dayrun` prints: a position, a number and two details, in decimal.
#![tactic(auto)]

ghost use Rattle.std.specs.Prelude.{◌≡◌, [], ◌∷◌, ◌++◌, ◌+◌, ◌≤◌, length};
ghost use Rattle.rules.specs.Said.{said_numbers};
ghost use Rattle.lines.specs.Text.{line_size, decimal, line_of};

use arrayvec::ArrayVec;
use itoa::Buffer;
use rules::ReplyNumbers;

// No line has more bytes: four numbers of at most twenty digits, each with a byte after it.
pub const LINE: usize = 84;

// A number in decimal, and the byte after it. Not by `write!`: its `Result` may be an `Err` for all that it promises, where this can't fail and says how
// long it gets.
fn write_number<const CAP: usize>(lines: &mut ArrayVec<u8, CAP>, number: u64, ending: u8)
    requires { length lines.old.items + 21 ≤ CAP }
    ensures text { lines.new.items ≡ lines.old.items ++ (decimal number ++ (ending ∷ [])) }
    ensures few { length lines.new.items ≤ length lines.old.items + 21 }
{
    let mut buffer = Buffer::new();
    let digits = buffer.format(number).as_bytes();
    lines.try_extend_from_slice(digits).unwrap();
    lines.push(ending);
}

// The line of a reply, behind those that are collected.
#[tactic(auto, unfolding(crate::specs::Text::line_of))]
pub fn write_line<const CAP: usize>(
    lines: &mut ArrayVec<u8, CAP>,
    position: u64,
    reply: ReplyNumbers,
)
    requires { length lines.old.items + line_size ≤ CAP }
    ensures text { lines.new.items ≡ lines.old.items ++ line_of position (said_numbers reply) }
    ensures few { length lines.new.items ≤ length lines.old.items + line_size }
{
    write_number(lines, position, b' ');
    write_number(lines, reply.number as u64, b' ');
    write_number(lines, reply.first as u64, b' ');
    write_number(lines, reply.second as u64, b'\n');
}
