// The clause book: clauses over a number of atoms, in fixed tables.
//
// A book is known by its number of atoms and by the list of its clauses, a clause being the list of its literals.
#![tactic(auto)]

pub mod adding;
pub mod book;
pub mod evaluation;
pub mod listing;
pub mod stretch;

pub const CLAUSE_LIMIT: usize = 400;

pub const LITERAL_LIMIT: usize = 2000;
