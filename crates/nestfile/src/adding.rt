// One row more of a body. A refused row changes nothing; it has no cause where its form is wrong.
ghost use Rattle.std.specs.Prelude.{◌≡◌, ◌+◌, ◌<◌, ◌≤◌, ◌++◌, ◌∷◌, [], true, length, map, is_ok, is_some, if◌then◌else◌};
ghost use Rattle.std.specs.Result.{result_err};
ghost use Rattle.tables.specs.Items.{entries};
ghost use Rattle.assignments.specs.Limits.{atom_limit};
ghost use Rattle.clauses.specs.Books.{atoms_of, clauses_of};
ghost use Rattle.clauses.specs.Adding.{refusal_of_adding};
ghost use Rattle.cycles.specs.Limits.{signal_limit};
ghost use Rattle.nestformat.specs.Limits.{row_limit, milliampere_load_limit, line_load_limit};
ghost use Rattle.nestformat.specs.Due.{is_arc, is_load, first_is_atom};
ghost use Rattle.nestlines.specs.Rows.{arc_numbers, load_numbers, verdict, caused};
ghost use Rattle.nestfile.specs.Bodies.{nest_rows, nest_atoms, nest_clauses, NestRead};

use crate::NestBody;
use assignments::AtomNumber;
use clauses::book::ClauseBook;
use cycles::arc::{Arc, SignalNumber};
use loads::kind::{Lines, Milliamperes};
use loads::row::Row;
use nestformat::{LINE_LOAD_LIMIT, MILLIAMPERE_LOAD_LIMIT, ROW_LIMIT};
use nestlines::numbers::{add_numbers, arc_of, atoms_named, load_of};
use refusals::Refusal;
use tables::Table;

pub(crate) fn add_clause(book: &mut ClauseBook, numbers: &[i32]) -> Result<(), Option<Refusal>>
    ensures refused { result_err result ≡ caused (refusal_of_adding (atoms_of book.old) (clauses_of book.old) numbers.now) }
    ensures rows { clauses_of book.new ≡ (if is_ok result then clauses_of book.old ++ numbers.now ∷ [] else clauses_of book.old) }
    ensures atoms { atoms_of book.new ≡ atoms_of book.old }
{
    add_numbers(book, numbers).map_err(Some)
}

pub(crate) fn add_arc(
    arcs: &mut Table<Arc, ROW_LIMIT>,
    numbers: &[i32],
    signals: usize,
    atoms: usize,
) -> Result<(), Option<Refusal>>
    requires room { length (entries arcs.old) < row_limit }
    requires few { signals ≤ signal_limit }
    requires near { atoms ≤ atom_limit }
    ensures refused { result_err result ≡ verdict (is_arc signals numbers.now) (first_is_atom atoms numbers.now) }
    ensures rows { map arc_numbers (entries arcs.new) ≡ (if is_ok result then map arc_numbers (entries arcs.old) ++ numbers.now ∷ [] else map arc_numbers (entries arcs.old)) }
{
    let arc = arc_of(numbers, signals as SignalNumber, atoms as AtomNumber)?;
    let _ = arcs.push(arc);
    Ok(())
}

pub(crate) fn add_milliamperes(
    rows: &mut Table<Row<Milliamperes>, ROW_LIMIT>,
    numbers: &[i32],
    atoms: usize,
) -> Result<(), Option<Refusal>>
    requires room { length (entries rows.old) < row_limit }
    requires near { atoms ≤ atom_limit }
    ensures refused { result_err result ≡ verdict (is_load milliampere_load_limit numbers.now) (first_is_atom atoms numbers.now) }
    ensures rows { map load_numbers (entries rows.new) ≡ (if is_ok result then map load_numbers (entries rows.old) ++ numbers.now ∷ [] else map load_numbers (entries rows.old)) }
{
    let Row { atom, load } = load_of(numbers, MILLIAMPERE_LOAD_LIMIT as u16, atoms as AtomNumber)?;
    let _ = rows.push(Row {
        atom,
        load: Milliamperes::from(load),
    });
    Ok(())
}

pub(crate) fn add_lines(
    rows: &mut Table<Row<Lines>, ROW_LIMIT>,
    numbers: &[i32],
    atoms: usize,
) -> Result<(), Option<Refusal>>
    requires room { length (entries rows.old) < row_limit }
    requires near { atoms ≤ atom_limit }
    ensures refused { result_err result ≡ verdict (is_load line_load_limit numbers.now) (first_is_atom atoms numbers.now) }
    ensures rows { map load_numbers (entries rows.new) ≡ (if is_ok result then map load_numbers (entries rows.old) ++ numbers.now ∷ [] else map load_numbers (entries rows.old)) }
{
    let row = load_of(numbers, LINE_LOAD_LIMIT as u16, atoms as AtomNumber)?;
    let _ = rows.push(row);
    Ok(())
}

impl NestBody {
    // A clause more of the nest.
    fn add_clause(&mut self, numbers: &[i32]) -> Result<(), Option<Refusal>>
        ensures refused { result_err result ≡ caused (refusal_of_adding (atoms_of self.old.book) (clauses_of self.old.book) numbers.now) }
        ensures rows { clauses_of self.new.book ≡ (if is_ok result then clauses_of self.old.book ++ numbers.now ∷ [] else clauses_of self.old.book) }
        ensures atoms { atoms_of self.new.book ≡ atoms_of self.old.book }
        ensures map { self.new.map ≡ self.old.map }
    {
        add_clause(&mut self.book, numbers)
    }
}

// A clause more of a nest, whose map is there.
pub(crate) fn add_nest_clause(
    nest: &mut Option<NestBody>,
    numbers: &[i32],
) -> Result<(), Option<Refusal>>
    requires { is_some nest.old ≡ true }
    ensures refused { result_err result ≡ caused (refusal_of_adding (nest_atoms nest.old) (nest_clauses nest.old) numbers.now) }
    ensures rows { nest_rows nest.new ≡ (if is_ok result then nest_rows nest.old ++ numbers.now ∷ [] else nest_rows nest.old) }
    ensures clauses { nest_clauses nest.new ≡ (if is_ok result then nest_clauses nest.old ++ numbers.now ∷ [] else nest_clauses nest.old) }
    ensures there { is_some nest.new ≡ true }
    ensures atoms { nest_atoms nest.new ≡ nest_atoms nest.old }
{
    let Some(body) = nest else {
        return Err(None);
    };
    body.add_clause(numbers)
}

// A nest with its map, of exactly `seen` atoms, and no clauses yet.
pub(crate) fn nest_of(
    numbers: &[i32],
    seen: usize,
    own: usize,
    limit: usize,
) -> Result<NestBody, Option<Refusal>>
    requires few { seen + own ≤ atom_limit }
    requires near { limit ≤ atom_limit }
    ensures { NestRead seen own limit numbers.now result }
{
    if numbers.len() != seen {
        return Err(None);
    }
    let Some(map) = atoms_named(numbers, limit as AtomNumber) else {
        return Err(Some(Refusal::LiteralOutOfRange));
    };
    let book = ClauseBook::fresh(seen + own).map_err(Some)?;
    Ok(NestBody { map, book })
}
