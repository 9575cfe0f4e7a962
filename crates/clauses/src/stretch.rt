// A clause's part of the literal table, and how much a book holds.
ghost use Rattle.std.specs.Prelude.{◌≡◌, ◌+◌, ◌≤◌, length, Some};
ghost use Rattle.clauses.specs.Stretches.{part};
ghost use Rattle.clauses.specs.Counting.{counts_text};

use assignments::Literal;
use std::fmt;

#[derive(Clone, Copy, PartialEq, Eq, Debug)]
pub struct Stretch {
    pub start: usize,
    pub len: usize,
}

impl Stretch {
    // Its part of the literal table.
    pub(crate) fn part_of(self, literals: &[Literal]) -> &[Literal]
        requires { self.start + self.len ≤ length literals.now }
        ensures { result.now ≡ part literals.now self }
    {
        &literals[self.start..self.start + self.len]
    }
}

#[derive(Clone, Copy, PartialEq, Eq, Debug)]
pub struct Counts {
    pub clauses: usize,
    pub literals: usize,
}

// As a user reads it.
impl fmt::Display for Counts {
    ghost output = { λ counts. Some (counts_text counts) };

    fn fmt<W: fmt::Write>(&self, f: &mut fmt::Formatter<W>) -> fmt::Result {
        write!(f, "{} clauses, {} literals", self.clauses, self.literals)
    }
}
