// What a session keeps beside its veto.
ghost use Rattle.std.specs.Prelude.{◌≤◌};
ghost use Rattle.ledgers.specs.Right.{scope_limit};

use assignments::ATOM_LIMIT;
use clauses::book::ClauseBook;
use clauses::stretch::Counts;

// So many scopes can be open.
pub const SCOPE_LIMIT: usize = 16;

// Where `next` stands: before the first, at what it handed out last, or past the end.
#[derive(Clone, Copy)]
pub enum Place<P> {
    BeforeFirst,
    Reached(P),
    PastEnd,
}

// What `next` answers.
#[derive(Clone, Copy, PartialEq, Eq, Debug)]
pub enum Step {
    Handed,
    NoMore,
}

// What `ask` answers.
#[derive(Clone, Copy, PartialEq, Eq, Debug)]
pub enum Wish {
    Chosen,
    Clash,
}

// What a sized session holds.
#[derive(Drop)]
pub struct SessionTable {
    // its number of atoms is the session's size
    pub(crate) book: ClauseBook,
    // for each open scope, what the book held at its opening
    pub(crate) scopes: [Counts; SCOPE_LIMIT],
    pub(crate) opened: usize,
    pub(crate) place: Place<[u8; ATOM_LIMIT]>,
    ghost few: { opened ≤ scope_limit },
}
