// One line of a listing, and its text.
ghost use Rattle.std.specs.Prelude.{◌≡◌, Some, None, cond, IfOk, length, flat_map, nat_lt};
ghost use Rattle.std.specs.Result.{result_err};
ghost use Rattle.assignments.specs.Limits.{atom_limit};
ghost use Rattle.listing.specs.Lines.{said, setting as «setting-line», text, word};
ghost use Rattle.listing.specs.Settings.{literals as «literals-of»};

use crate::literals::literals_of;
use assignments::{ATOM_LIMIT, Literal};
use refusals::Refusal;
use std::fmt;
use tables::Table;

#[derive(Drop)]
pub enum Line {
    // the map's number, and the number of atoms
    Head { map: u16, atoms: usize },
    // an assignment, by its literal of each atom
    Setting(Table<Literal, ATOM_LIMIT>),
    // all are given, so many
    End(usize),
    // so many are given, and there are more
    More(usize),
}

impl Line {
    // The line of an assignment: atom k on where its byte is 1, else off. Of more than 200 bytes it is refused.
    pub fn setting(assignment: &[u8]) -> Result<Line, Refusal>
        ensures refused { result_err result ≡ cond (nat_lt atom_limit (length assignment.now)) (Some Refusal.CountOutOfRange) None }
        ensures says { IfOk result (λ line. said line ≡ «setting-line» («literals-of» assignment.now)) }
    {
        if assignment.len() > ATOM_LIMIT {
            return Err(Refusal::CountOutOfRange);
        }
        Ok(Line::Setting(literals_of(assignment)))
    }
}

// As words of a line.
#[derive(Clone, Copy)]
struct Words<'a>(&'a [Literal]);

impl fmt::Display for Words<'_> {
    ghost output = { λ words. Some (flat_map word words.0.now) };

    fn fmt<W: fmt::Write>(&self, f: &mut fmt::Formatter<W>) -> fmt::Result {
        for literal in self.0 {
            write!(f, " {literal}")?;
        }
        Ok(())
    }
}

impl fmt::Display for Line {
    ghost output = { λ line. Some (text (said line)) };

    fn fmt<W: fmt::Write>(&self, f: &mut fmt::Formatter<W>) -> fmt::Result {
        match self {
            Line::Head { map, atoms } => write!(f, "map {map} atoms {atoms}"),
            Line::Setting(literals) => write!(f, "v{} 0", Words(literals.as_slice())),
            Line::End(count) => write!(f, "end {count}"),
            Line::More(count) => write!(f, "more {count}"),
        }
    }
}
