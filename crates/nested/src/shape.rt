// How a nest is shaped, and what always holds of that.
ghost use Rattle.std.specs.Prelude.{◌≡◌, ◌≤◌, true, length};
ghost use Rattle.std.specs.List.{list_all};
ghost use Rattle.tables.specs.Items.{entries};
ghost use Rattle.clauses.specs.Books.{atoms_of};
ghost use Rattle.nested.specs.Nests.{is_atom};

use assignments::{ATOM_LIMIT, AtomNumber};
use clauses::book::ClauseBook;
use tables::Table;

#[derive(Drop)]
pub struct Shape {
    // the host atom of each seen atom
    pub(crate) map: Table<AtomNumber, ATOM_LIMIT>,
    // over the seen atoms and, after them, the nest's own
    pub(crate) book: ClauseBook,
    ghost mapped: { list_all is_atom (entries map) ≡ true },
    ghost seen: { length (entries map) ≤ atoms_of book },
}
