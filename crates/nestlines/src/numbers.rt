// The numbers of a row as what they stand for, each within its range before it is stored in fewer bits.
ghost use Rattle.std.specs.Prelude.{◌≡◌, ◌≤◌, ◌++◌, ◌∷◌, [], length, true, pos, is_ok, if◌then◌else◌};
ghost use Rattle.std.specs.Result.{result_err};
ghost use Rattle.tables.specs.Items.{entries};
ghost use Rattle.assignments.specs.Limits.{atom_limit};
ghost use Rattle.assignments.specs.Literals.{in_range, all_in_range};
ghost use Rattle.clauses.specs.Books.{atoms_of, clauses_of};
ghost use Rattle.clauses.specs.Limits.{literal_limit};
ghost use Rattle.clauses.specs.Adding.{refusal_of_adding};
ghost use Rattle.cycles.specs.Limits.{signal_limit};
ghost use Rattle.std.specs.List.{list_all};
ghost use Rattle.nestformat.specs.Due.{is_atom, is_arc, is_load, first_is_atom};
ghost use Rattle.nestlines.specs.Rows.{arc_numbers, load_numbers, ReadAs, Mapped};

use assignments::{ATOM_LIMIT, AtomNumber, Literal};
use clauses::book::ClauseBook;
use clauses::{CLAUSE_LIMIT, LITERAL_LIMIT};
use cycles::arc::{Arc, SignalNumber};
use loads::row::Row;
use refusals::Refusal;
use tables::Table;

// Whether the number is one from 1 to `most`.
fn is_up_to(most: u16, number: i32) -> bool
    ensures { result ≡ is_atom most number }
{
    1 <= number && number <= i32::from(most)
}

fn is_literal(number: i32, atoms: usize) -> bool
    requires { atoms ≤ atom_limit }
    ensures { result ≡ in_range atoms number }
{
    number != 0 && number.unsigned_abs() as usize <= atoms
}

// Whether each number is a literal over so many atoms.
fn are_literals(numbers: &[i32], atoms: usize) -> bool
    requires { atoms ≤ atom_limit }
    ensures { result ≡ all_in_range atoms numbers.now }
{
    numbers.iter().all(|number| is_literal(*number, atoms))
}

// Whether each number names one of so many atoms.
fn are_atoms(numbers: &[i32], atoms: AtomNumber) -> bool
    ensures { result ≡ list_all (is_atom atoms) numbers.now }
{
    numbers
        .iter()
        .all(|number| is_up_to(u16::from(atoms), *number))
}

fn literal_of(number: i32, atoms: usize) -> Literal
    requires near { atoms ≤ atom_limit }
    requires ranged { in_range atoms number ≡ true }
    ensures { result ≡ number }
{
    number as Literal
}

fn atom_of(number: i32, atoms: AtomNumber) -> AtomNumber
    requires { is_atom atoms number ≡ true }
    ensures { pos result ≡ number }
{
    number as AtomNumber
}

// The same numbers as literals.
fn literals_of(numbers: &[i32], atoms: usize) -> Table<Literal, LITERAL_LIMIT>
    requires few { length numbers.now ≤ literal_limit }
    requires near { atoms ≤ atom_limit }
    requires ranged { all_in_range atoms numbers.now ≡ true }
    ensures { entries result ≡ numbers.now }
{
    let mut literals = Table::new(0);
    for number in numbers {
        let _ = literals.push(literal_of(*number, atoms));
    }
    literals
}

// One clause more of a book, of these numbers. A refusal changes nothing.
pub fn add_numbers(book: &mut ClauseBook, numbers: &[i32]) -> Result<(), Refusal>
    ensures refused { result_err result ≡ refusal_of_adding (atoms_of book.old) (clauses_of book.old) numbers.now }
    ensures clauses { clauses_of book.new ≡ (if is_ok result then clauses_of book.old ++ numbers.now ∷ [] else clauses_of book.old) }
    ensures atoms { atoms_of book.new ≡ atoms_of book.old }
{
    if !are_literals(numbers, book.atoms()) {
        return Err(Refusal::LiteralOutOfRange);
    }
    if numbers.len() > LITERAL_LIMIT {
        let full = book.counts().clauses >= CLAUSE_LIMIT;
        return Err(if full {
            Refusal::ClauseTableFull
        } else {
            Refusal::LiteralTableFull
        });
    }
    let literals = literals_of(numbers, book.atoms());
    book.add(literals.as_slice())
}

// The numbers as atoms, if each names one of so many and there is room for all.
pub fn atoms_named(numbers: &[i32], atoms: AtomNumber) -> Option<Table<AtomNumber, ATOM_LIMIT>>
    ensures { Mapped atoms numbers.now result }
{
    if !are_atoms(numbers, atoms) || numbers.len() > ATOM_LIMIT {
        return None;
    }
    let mut named = Table::new(0);
    for number in numbers {
        let _ = named.push(atom_of(*number, atoms));
    }
    Some(named)
}

// A loop row: the atom of an arc, and the two signals that it leads between. One of another form has no cause.
pub fn arc_of(
    numbers: &[i32],
    signals: SignalNumber,
    atoms: AtomNumber,
) -> Result<Arc, Option<Refusal>>
    ensures { ReadAs arc_numbers numbers.now (is_arc signals numbers.now) (first_is_atom atoms numbers.now) result }
{
    let [atom, from, to] = numbers else {
        return Err(None);
    };
    let signals = u16::from(signals);
    if !is_up_to(signals, *from) || !is_up_to(signals, *to) {
        return Err(None);
    }
    if !is_up_to(u16::from(atoms), *atom) {
        return Err(Some(Refusal::LiteralOutOfRange));
    }
    Ok(Arc {
        atom: *atom as AtomNumber,
        from: *from as SignalNumber,
        to: *to as SignalNumber,
    })
}

// A load row: an atom, and the load, up to `most`, that counts where it is true. One of another form has no cause.
pub fn load_of(numbers: &[i32], most: u16, atoms: AtomNumber) -> Result<Row<u16>, Option<Refusal>>
    ensures { ReadAs load_numbers numbers.now (is_load most numbers.now) (first_is_atom atoms numbers.now) result }
{
    let [atom, load] = numbers else {
        return Err(None);
    };
    if !is_up_to(most, *load) {
        return Err(None);
    }
    if !is_up_to(u16::from(atoms), *atom) {
        return Err(Some(Refusal::LiteralOutOfRange));
    }
    Ok(Row {
        atom: *atom as AtomNumber,
        load: *load as u16,
    })
}
