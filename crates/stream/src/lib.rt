// The step of the program `dayrun` that answers a call record, and all steps in a row.
#![tactic(auto)]

ghost use Rattle.std.specs.Prelude.{◌+◌, ◌≤◌, length};
ghost use Rattle.lines.specs.Text.{line_size};
ghost use Rattle.stream.specs.Running.{AnswersNext};

use cells::Book;
use dayrun_progress::Buffers;

// Answers the next record and collects its line. The program is done after a 1.
pub fn answer_next<const ROOM: usize, const TEXT: usize>(
    book: &mut Book,
    buffers: &mut Buffers<ROOM, TEXT>,
)
    requires { length buffers.old.lines.items + line_size ≤ TEXT }
    ensures { AnswersNext book.old buffers.old buffers.new book.new }
{
    let answer = match dayrun_records::take_record(book, buffers.unread.bytes()) {
        Ok(taken) => {
            buffers.unread.take(taken.length);
            taken.answer
        }
        Err(refusal) => Err(refusal),
    };
    let reply = daybook::numbers(answer);
    lines::write_line(&mut buffers.lines, buffers.progress.position, reply);
    buffers.progress.position = buffers.progress.position.wrapping_add(1);
    buffers.progress.done = reply.number == 1;
}
