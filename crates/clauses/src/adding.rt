// A book from its start on: fresh, one clause more, and back to what it held before.
ghost use Rattle.std.specs.Prelude.{◌≡◌, ◌≤◌, [], ◌∷◌, ◌++◌, length, take, None, is_ok, IfOk, if◌then◌else◌};
ghost use Rattle.std.specs.Result.{result_err};
ghost use Rattle.assignments.specs.Limits.{atom_limit};
ghost use Rattle.clauses.specs.Books.{atoms_of, clauses_of};
ghost use Rattle.clauses.specs.Adding.{refusal_of_fresh, refusal_of_adding, literal_count, is_front};

use crate::book::ClauseBook;
use crate::stretch::{Counts, Stretch};
use crate::{CLAUSE_LIMIT, LITERAL_LIMIT};
use assignments::literals::are_in_range;
use assignments::{ATOM_LIMIT, Literal};
use refusals::Refusal;
use tables::Table;

impl ClauseBook {
    // A book of no clauses over so many atoms.
    pub fn fresh(atoms: usize) -> Result<ClauseBook, Refusal>
        ensures refused { result_err result ≡ refusal_of_fresh atoms }
        ensures atoms { IfOk result (λ b. atoms_of b ≡ atoms) }
        ensures clauses { IfOk result (λ b. clauses_of b ≡ []) }
    {
        if atoms > ATOM_LIMIT {
            return Err(Refusal::CountOutOfRange);
        }
        Ok(ClauseBook::over(atoms))
    }

    // A book of no atoms and no clauses.
    pub fn empty() -> ClauseBook
        ensures atoms { atoms_of result ≡ 0 }
        ensures clauses { clauses_of result ≡ [] }
    {
        ClauseBook::over(0)
    }

    // A book of no clauses over a number of atoms within the limit.
    fn over(atoms: usize) -> ClauseBook
        requires { atoms ≤ atom_limit }
        ensures atoms { atoms_of result ≡ atoms }
        ensures clauses { clauses_of result ≡ [] }
    {
        ClauseBook {
            atoms,
            literals: Table::new(0),
            stretches: Table::new(Stretch { start: 0, len: 0 }),
        }
    }

    // One clause more at the end. A refusal changes nothing.
    pub fn add(&mut self, clause: &[Literal]) -> Result<(), Refusal>
        ensures refused { result_err result ≡ refusal_of_adding (atoms_of self.old) (clauses_of self.old) clause.now }
        ensures clauses { clauses_of self.new ≡ (if is_ok result then clauses_of self.old ++ clause.now ∷ [] else clauses_of self.old) }
        ensures atoms { atoms_of self.new ≡ atoms_of self.old }
    {
        self.accepts(clause)?;
        self.append(clause);
        Ok(())
    }

    // One clause more at the end, which the book accepts.
    fn append(&mut self, clause: &[Literal])
        requires { refusal_of_adding (atoms_of self.now) (clauses_of self.now) clause.now ≡ None }
        ensures clauses { clauses_of self.new ≡ clauses_of self.old ++ clause.now ∷ [] }
        ensures atoms { atoms_of self.new ≡ atoms_of self.old }
    {
        let start = self.literals.as_slice().len();
        let len = clause.len();
        let _ = self.literals.extend(clause);
        let _ = self.stretches.push(Stretch { start, len });
    }

    // Whether the clause may be added, or the earliest refusal that it meets.
    fn accepts(&self, clause: &[Literal]) -> Result<(), Refusal>
        ensures { result_err result ≡ refusal_of_adding (atoms_of self.now) (clauses_of self.now) clause.now }
    {
        if !are_in_range(clause, self.atoms) {
            return Err(Refusal::LiteralOutOfRange);
        }
        let held = self.counts();
        if held.clauses >= CLAUSE_LIMIT {
            return Err(Refusal::ClauseTableFull);
        }
        if held.literals.saturating_add(clause.len()) > LITERAL_LIMIT {
            return Err(Refusal::LiteralTableFull);
        }
        Ok(())
    }

    pub fn atoms(&self) -> usize
        ensures { result ≡ atoms_of self.now }
    {
        self.atoms
    }

    pub fn counts(&self) -> Counts
        ensures clauses { result.clauses ≡ length (clauses_of self.now) }
        ensures literals { result.literals ≡ literal_count (clauses_of self.now) }
    {
        Counts {
            clauses: self.stretches.as_slice().len(),
            literals: self.literals.as_slice().len(),
        }
    }

    // Drops the clauses added since the book held so many clauses and literals.
    // Where its first clauses never came to these counts, it answers false and drops nothing.
    pub fn cut_back(&mut self, to: Counts) -> bool
        ensures value { result ≡ is_front (clauses_of self.old) to.clauses to.literals }
        ensures clauses { clauses_of self.new ≡ (if result then take to.clauses (clauses_of self.old) else clauses_of self.old) }
        ensures atoms { atoms_of self.new ≡ atoms_of self.old }
    {
        if !self.is_front(to) {
            return false;
        }
        self.stretches.truncate(to.clauses);
        self.literals.truncate(to.literals);
        true
    }

    // Whether the first clauses of the book come to these counts.
    fn is_front(&self, to: Counts) -> bool
        ensures { result ≡ is_front (clauses_of self.now) to.clauses to.literals }
    {
        match self.stretches.as_slice().get(to.clauses) {
            Some(stretch) => stretch.start == to.literals,
            None => to == self.counts(),
        }
    }
}
