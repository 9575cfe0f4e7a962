// The ranges of the numbers of a contents line, and the atoms that they come to.
ghost use Rattle.std.specs.Prelude.{◌≡◌, Some, None, cond};
ghost use Rattle.nestformat.specs.Limits.{positive_within};
ghost use Rattle.nestformat.specs.Kinds.{size_range, own_range, rows_range, atoms_in, atoms_told};
ghost use Rattle.nestformat.specs.Due.{natural};
ghost use Rattle.nestformat.specs.Reading.{over_atoms};
ghost use Rattle.nestlines.specs.Entries.{told_range, entry_told};

use crate::tokens::within;
use assignments::ATOM_LIMIT;
use cycles::arc::SIGNAL_LIMIT;
use nestformat::kinds::{BodyKind, Contents};
use nestformat::{CLAUSE_ROW_LIMIT, LINE_LIMIT, MILLIAMPERE_LIMIT, ROW_LIMIT};

// The numbers from `low` to `high`.
#[derive(Clone, Copy, PartialEq, Eq, Debug)]
pub(crate) struct Span {
    low: u32,
    high: u32,
}

impl Span {
    fn of(self, number: i32) -> Option<u32>
        ensures { result ≡ cond (positive_within (told_range self) number) (Some (natural number)) None }
    {
        within(number, self.low, self.high)
    }
}

fn size_range(kind: BodyKind) -> Span
    ensures { told_range result ≡ size_range kind }
{
    match kind {
        BodyKind::Outer | BodyKind::Nest | BodyKind::Below => Span {
            low: 0,
            high: ATOM_LIMIT as u32,
        },
        BodyKind::Loop => Span {
            low: 1,
            high: SIGNAL_LIMIT as u32,
        },
        BodyKind::Milliamperes => Span {
            low: 0,
            high: MILLIAMPERE_LIMIT,
        },
        BodyKind::Lines => Span {
            low: 0,
            high: LINE_LIMIT,
        },
    }
}

fn own_range(kind: BodyKind) -> Span
    ensures { told_range result ≡ own_range kind }
{
    match kind {
        BodyKind::Nest | BodyKind::Below => Span {
            low: 0,
            high: ATOM_LIMIT as u32,
        },
        BodyKind::Outer | BodyKind::Loop | BodyKind::Milliamperes | BodyKind::Lines => {
            Span { low: 0, high: 0 }
        }
    }
}

fn rows_range(kind: BodyKind) -> Span
    ensures { told_range result ≡ rows_range kind }
{
    match kind {
        BodyKind::Outer => Span {
            low: 0,
            high: CLAUSE_ROW_LIMIT as u32,
        },
        BodyKind::Nest | BodyKind::Below => Span {
            low: 1,
            high: CLAUSE_ROW_LIMIT as u32,
        },
        BodyKind::Loop | BodyKind::Milliamperes | BodyKind::Lines => Span {
            low: 0,
            high: ROW_LIMIT as u32,
        },
    }
}

// The atoms of the body that the entry names.
pub fn atoms_in(entry: &Contents) -> usize
    ensures { result ≡ atoms_in entry.now }
{
    match entry.kind {
        BodyKind::Outer | BodyKind::Nest | BodyKind::Below => {
            entry.size as usize + entry.own as usize
        }
        _ => 0,
    }
}

// The entry of these numbers, where each is in its range.
pub(crate) fn entry_within(kind: BodyKind, size: i32, own: i32, rows: i32) -> Option<Contents>
    ensures { result ≡ entry_told kind size own rows }
{
    let size = size_range(kind).of(size)?;
    let own = own_range(kind).of(own)?;
    let rows = rows_range(kind).of(rows)? as usize;
    let entry = Contents {
        kind,
        size,
        own,
        rows,
    };
    if atoms_in(&entry) > ATOM_LIMIT {
        return None;
    }
    Some(entry)
}

// Whether the two numbers come to more atoms than there may be, whatever else is wrong with them.
#[tactic(auto, using(crate::proofs::Orders::over_is))]
pub(crate) fn has_too_many_atoms(kind: BodyKind, size: i32, own: i32) -> bool
    ensures { result ≡ over_atoms (atoms_told kind size own) }
{
    match kind {
        BodyKind::Outer => size > ATOM_LIMIT as i32,
        BodyKind::Nest | BodyKind::Below => { i64::from(size) + i64::from(own) > ATOM_LIMIT as i64 }
        BodyKind::Loop | BodyKind::Milliamperes | BodyKind::Lines => false,
    }
}
