// The bytes of a line that is read, what stands next in it, numbers in a row, and the text of an answer as it is collected.
#![tactic(auto)]

mod input;
mod next;
mod output;
mod row;

pub use input::{LONGEST, Line, ROOM, keep, without_order_mark, without_return};
pub use next::{ends_word, is_over, past_all, past_sign, past_word, spaces_in};
pub use output::{TEXT, Text};
pub use row::{MOST, Numbers};
