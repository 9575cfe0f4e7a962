// A draft of a problem: what the lines read so far say, and which is due.
ghost use Rattle.std.specs.Prelude.{◌≡◌, ◌≤◌, [], true, false};
ghost use Rattle.nestformat.specs.Kinds.{has_map};
ghost use Rattle.nestformat.specs.Due.{due, start};
ghost use Rattle.nestformat.specs.Reading.{finished};
ghost use Rattle.nestfile.specs.declared.drafts.Phase.TheVariants.{Map};
ghost use Rattle.nestlines.specs.Sorts.{slot_of};
ghost use Rattle.nestfile.specs.Drafts.{state_of, items_in, EntriesLeft, RowsLeft, Sound};

use crate::Parts;
use nestformat::kinds::{BodyKind, Contents};
use nestlines::due::Due;
use nestlines::rows::RowNumbers;
use tables::Table;

// Which lines are to come.
#[derive(Clone, Copy, PartialEq, Eq, Debug)]
pub(crate) enum Phase {
    Heading,
    // so many lines of the contents
    Contents {
        left: usize,
    },
    // the line that opens the body with this index, if there is one
    Bodies {
        next: usize,
    },
    // the map of the entry before that index, and its other rows
    Map {
        entry: Contents,
        next: usize,
    },
    // so many rows of it
    Rows {
        entry: Contents,
        left: usize,
        next: usize,
    },
}

#[derive(Drop)]
pub(crate) struct Draft {
    pub(crate) parts: Parts,
    pub(crate) phase: Phase,
    // the kind of the body that was opened last
    pub(crate) opened: Option<BodyKind>,
    // the numbers of a row, while it is read
    pub(crate) numbers: RowNumbers,
}

fn has_map(kind: BodyKind) -> bool
    ensures { result ≡ has_map kind }
{
    match kind {
        BodyKind::Nest | BodyKind::Below => true,
        BodyKind::Outer | BodyKind::Loop | BodyKind::Milliamperes | BodyKind::Lines => false,
    }
}

// The phase after one of so many lines of the contents.
pub(crate) fn after_entry(left: usize) -> Phase
    requires { 1 ≤ left }
    ensures { EntriesLeft left result }
{
    if left == 1 {
        return Phase::Bodies { next: 0 };
    }
    Phase::Contents { left: left - 1 }
}

// The phase with so many rows of the entry to come.
pub(crate) fn rows_left(entry: Contents, left: usize, next: usize) -> Phase
    ensures { RowsLeft entry left next result }
{
    if left == 0 {
        return Phase::Bodies { next };
    }
    Phase::Rows { entry, left, next }
}

// The phase after the opening of the entry.
pub(crate) fn after_opening(entry: Contents, next: usize) -> Phase
    ensures map { has_map entry.kind ≡ true → result ≡ Map entry next }
    ensures rows { has_map entry.kind ≡ false → RowsLeft entry entry.rows next result }
{
    if has_map(entry.kind) {
        return Phase::Map { entry, next };
    }
    rows_left(entry, entry.rows, next)
}

impl Draft {
    pub(crate) fn new() -> Draft
        ensures state { state_of result ≡ start }
        ensures items { items_in result ≡ [] }
        ensures sound { Sound result }
    {
        Draft {
            parts: Parts::new(0),
            phase: Phase::Heading,
            opened: None,
            numbers: Table::new(0),
        }
    }

    pub(crate) fn due(&self) -> Due
        requires { Sound self.now }
        ensures { slot_of result ≡ due (state_of self.now).todo }
    {
        match self.phase {
            Phase::Heading => Due::Heading,
            Phase::Contents { .. } => Due::Contents,
            Phase::Bodies { next } => match self.parts.contents.as_slice().get(next) {
                Some(entry) => Due::Body(*entry),
                None => Due::End,
            },
            Phase::Map { entry, .. } => Due::Map(entry),
            Phase::Rows { entry, .. } => Due::Row(entry),
        }
    }

    // The letter of the body that was opened last, or a minus before the first.
    pub(crate) fn letter(&self) -> char
        ensures { result ≡ (state_of self.now).letter }
    {
        match self.opened {
            Some(kind) => kind.letter(),
            None => '-',
        }
    }

    // Whether no line is to come.
    #[tactic(auto, using(crate::proofs::Endings::bodies_done, crate::proofs::Endings::contents_open, crate::proofs::Endings::rows_open))]
    pub(crate) fn is_done(&self) -> bool
        requires { Sound self.now }
        ensures { result ≡ finished (state_of self.now).todo }
    {
        match self.phase {
            Phase::Bodies { next } => next >= self.parts.contents.as_slice().len(),
            Phase::Heading | Phase::Map { .. } => false,
            Phase::Contents { .. } => false,
            Phase::Rows { .. } => false,
        }
    }
}
