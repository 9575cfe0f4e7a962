// Nest files: a problem, and how it is read from a text.
#![tactic(auto)]

pub mod access;
mod adding;
mod bodies;
mod drafts;
pub mod reading;
mod takes;

ghost use Rattle.std.specs.Prelude.{◌≡◌, true};
ghost use Rattle.nestformat.specs.Items.{items_of};
ghost use Rattle.nestformat.specs.Due.{start};
ghost use Rattle.nestformat.specs.Reading.{whole};
ghost use Rattle.nestfile.specs.Bodies.{bare, sized, problem_of};

use assignments::{ATOM_LIMIT, AtomNumber};
use clauses::book::ClauseBook;
use cycles::arc::Arc;
use loads::kind::{Lines, Milliamperes};
use loads::row::Row;
use nestformat::kinds::Contents;
use nestformat::{BODY_LIMIT, ROW_LIMIT};
use tables::Table;

// A nest as a file describes it: the atoms that its seen ones stand for, and the clauses over its own numbering.
#[derive(Drop)]
pub struct NestBody {
    pub map: Table<AtomNumber, ATOM_LIMIT>,
    pub book: ClauseBook,
}

// The fields of a problem, whole or not. A nest is there once its map is; a body that the contents do not name is empty.
#[derive(Drop)]
pub(crate) struct Parts {
    map: u16,
    contents: Table<Contents, BODY_LIMIT>,
    outer: ClauseBook,
    nest: Option<NestBody>,
    below: Option<NestBody>,
    arcs: Table<Arc, ROW_LIMIT>,
    milliamperes: Table<Row<Milliamperes>, ROW_LIMIT>,
    lines: Table<Row<Lines>, ROW_LIMIT>,
}

// A needle map, contents, and a body for each of them in their order: what a nest file says, whole. Each book of clauses is over the atoms that the contents give to its body.
#[derive(Drop)]
pub struct Problem {
    parts: Parts,
    ghost whole: { whole start (items_of (problem_of parts)) ≡ true },
    ghost bare: { bare parts ≡ true },
    ghost sized: { sized parts ≡ true },
}
