// The known atoms of a clause, as ticks.
ghost use Rattle.std.specs.Prelude.{[], length, slice_index_or};
ghost use Rattle.clauses.specs.Books.{clauses_of};
ghost use Rattle.propagation.specs.Ticking.{Adds, Named, Inside};

use assignments::Literal;
use assignments::literals::place_of;
use clauses::book::ClauseBook;

// Ticks the known atoms that the literals name, as far as the ticks go.
pub fn tick_known(literals: &[Literal], assignment: &[u8], ticks: &mut [u8])
    ensures { Adds (Inside (length ticks.old) (Named assignment.now literals.now (length literals.now))) ticks.old ticks.new }
{
    let atoms = assignment.len().min(ticks.len());
    for literal in literals {
        let Some(place) = place_of(*literal, atoms) else {
            continue;
        };
        if assignment[place] < 2 {
            ticks[place] = 1;
        }
    }
}

// The same for the clause of this index.
pub fn explain(book: &ClauseBook, index: usize, assignment: &[u8], ticks: &mut [u8])
    ensures { Adds (Inside (length ticks.old) (Named assignment.now (slice_index_or (clauses_of book.now) index []) (length (slice_index_or (clauses_of book.now) index [])))) ticks.old ticks.new }
{
    if let Some(clause) = book.clause(index) {
        tick_known(clause, assignment, ticks);
    }
}
