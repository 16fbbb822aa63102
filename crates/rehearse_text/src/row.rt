// Numbers in a row.
ghost use Rattle.std.specs.Prelude.{◌≡◌, ◌==◌, ◌-◌, ◌<◌, ◌≤◌, [], ◌∷◌, ◌++◌, length, replicate, take, drop};
ghost use Rattle.rehearse_text.specs.declared.row.TheConstants.{MOST};

use std::fmt;

// How many numbers of a row are kept.
pub const MOST: usize = 10;

// The first ten numbers. The values past the count are 0, so that rows of the same numbers are equal field by field. No `ArrayVec`, which isn't `Copy`.
#[derive(Clone, Copy, PartialEq, Eq)]
pub struct Numbers {
    values: [u64; MOST],
    count: usize,
    ghost fits: { count ≤ length values },
    ghost zeros: { drop count values ≡ replicate (MOST - count) 0 },
}

impl Numbers {
    ghost use Rattle.rehearse_text.specs.Rows.{numbers_in};

    // One number more, where there is room.
    pub fn add(&mut self, value: u64)
        ensures added { length (numbers_in self.old) < MOST → numbers_in self.new ≡ numbers_in self.old ++ value ∷ [] }
        ensures full { length (numbers_in self.old) ≡ MOST → self.new ≡ self.old }
    {
        if self.count < MOST {
            self.values[self.count] = value;
            self.count += 1;
        }
    }

    // All ten; those that are left out are 0.
    pub fn values(&self) -> [u64; MOST]
        ensures { result ≡ numbers_in self.now ++ replicate (MOST - length (numbers_in self.now)) 0 }
    {
        self.values
    }

    pub fn count(&self) -> usize
        ensures { result ≡ length (numbers_in self.now) }
    {
        self.count
    }

    pub fn is_empty(&self) -> bool
        ensures { result ≡ (length (numbers_in self.now) == 0) }
    {
        self.count == 0
    }
}

// Not derived: no derive makes a ghost field.
impl Default for Numbers {
    ghost use Rattle.rehearse_text.specs.Rows.{numbers_in};

    ghost is_default = { λ row. numbers_in row ≡ [] };

    fn default() -> Numbers {
        Numbers {
            values: [0; MOST],
            count: 0,
        }
    }
}

impl<const N: usize> From<[u64; N]> for Numbers {
    ghost use Rattle.rehearse_text.specs.Rows.{numbers_in};

    ghost from_gives = { λ row numbers. numbers_in numbers ≡ take MOST row };

    fn from(row: [u64; N]) -> Numbers {
        let row = &row[..];
        let kept = row.get(..MOST).unwrap_or(row);
        let mut values = [0; MOST];
        values[..kept.len()].copy_from_slice(kept);
        Numbers {
            values,
            count: kept.len(),
        }
    }
}

// With a space between two of them.
impl fmt::Display for Numbers {
    ghost use Rattle.std.specs.Prelude.{Some};
    ghost use Rattle.rehearse_text.specs.Rows.{numbers_in, row_text};

    ghost output = { λ numbers. Some (row_text (numbers_in numbers)) };

    fn fmt<W: fmt::Write>(&self, f: &mut fmt::Formatter<W>) -> fmt::Result {
        let [first, rest @ ..] = &self.values[..self.count] else {
            return Ok(());
        };
        write!(f, "{first}")?;
        for value in rest {
            write!(f, " {value}")?;
        }
        Ok(())
    }
}
