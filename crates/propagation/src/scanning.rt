// A clause, and all clauses of a book, at a partial assignment.
ghost use Rattle.clauses.specs.Books.{clauses_of};
ghost use Rattle.propagation.specs.States.{Told, Seen, Waiting, passed};

use crate::literal::{Look, look_at};
use crate::wanted::Wanted;
use assignments::Literal;
use clauses::book::ClauseBook;

#[derive(Clone, Copy, PartialEq, Eq, Debug)]
pub enum State {
    Met,
    Broken,
    // one value is left for an atom
    Unit(Wanted),
    Undecided,
}

// What the book says: a clause that is broken, or one that leaves one value for an atom; each by its index.
#[derive(Clone, Copy, PartialEq, Eq, Debug)]
pub enum Sight {
    Conflict(usize),
    Forces(usize, Wanted),
    Quiet,
}

pub fn state_of(clause: &[Literal], assignment: &[u8], from: usize) -> State
    ensures { Told from assignment.now clause.now result }
{
    let mut open = None;
    for literal in clause {
        match look_at(*literal, assignment, from) {
            Look::Holds => return State::Met,
            Look::Fails => continue,
            Look::Open(wanted) => {
                if open.replace(wanted).is_some() {
                    return State::Undecided;
                }
            }
        }
    }
    open.map_or(State::Broken, State::Unit)
}

// The first clause that is broken or leaves one value.
pub fn scan(book: &ClauseBook, assignment: &[u8], from: usize) -> Sight
    ensures seen { Seen from assignment.now (clauses_of book.now) result }
    ensures first { Waiting from assignment.now (clauses_of book.now) (passed (clauses_of book.now) result) }
{
    for (index, clause) in book.clauses().enumerate() {
        match state_of(clause, assignment, from) {
            State::Met | State::Undecided => continue,
            State::Broken => return Sight::Conflict(index),
            State::Unit(wanted) => return Sight::Forces(index, wanted),
        }
    }
    Sight::Quiet
}
