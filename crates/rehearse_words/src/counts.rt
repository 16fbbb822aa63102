// The count of lines.
ghost use Rattle.std.specs.Prelude.{◌≡◌, ◌+◌, min, nat_lt, if◌then◌else◌};
ghost use Rattle.rehearse_words.specs.Texts.{differ_text};

use std::fmt;

#[derive(Clone, Copy, Default, PartialEq, Eq)]
pub struct Counts {
    answered: u64,
    differing: u64,
    not_understood: u64,
}

impl Counts {
    // The first line that is answered opens a day.
    pub fn has_opened(self) -> bool
        ensures { result ≡ nat_lt 0 self.answered }
    {
        0 < self.answered
    }

    pub fn add_answered(&mut self, differs: bool)
        ensures answered { self.new.answered ≡ min (self.old.answered + 1) u64.MAX }
        ensures differing { self.new.differing ≡ min (self.old.differing + (if differs then 1 else 0)) u64.MAX }
        ensures kept { self.new.not_understood ≡ self.old.not_understood }
    {
        self.answered = self.answered.saturating_add(1);
        self.differing = self.differing.saturating_add(u64::from(differs));
    }

    pub fn add_not_understood(&mut self)
        ensures { self.new ≡ record self.old { not_understood = min (self.old.not_understood + 1) u64.MAX } }
    {
        self.not_understood = self.not_understood.saturating_add(1);
    }
}

fn differ_word(lines: u64) -> &'static str
    ensures { result.now ≡ differ_text lines }
{
    if lines == 1 { "differs" } else { "differ" }
}

impl fmt::Display for Counts {
    ghost use Rattle.std.specs.Prelude.{Some};
    ghost use Rattle.rehearse_words.specs.Texts.{counts_text};

    ghost output = { λ counts. Some (counts_text counts) };

    fn fmt<W: fmt::Write>(&self, f: &mut fmt::Formatter<W>) -> fmt::Result {
        let answered = self.answered;
        let differing = self.differing;
        let not_understood = self.not_understood;
        let differ = differ_word(differing);
        write!(
            f,
            "{answered} lines answered, {differing} {differ} from what was expected, {not_understood} not understood"
        )
    }
}
