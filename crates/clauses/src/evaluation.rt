// The clauses of a book, one by one and all together at an assignment.
ghost use Rattle.std.specs.Prelude.{◌≡◌, ◌<◌, ◌≤◌, [], length, if◌then◌else◌, Some, None, Decides, MatchOption, nat_lt, slice_index_or};
ghost use Rattle.assignments.specs.Literals.{met, all_met};
ghost use Rattle.clauses.specs.Books.{clauses_of};
ghost use Rattle.clauses.specs.Evaluation.{EachHasTrue};

use crate::book::ClauseBook;
use assignments::Literal;
use assignments::literals::{is_met, is_true};

impl ClauseBook {
    // The literals of one clause, the first having the index 0: a part of the literal table.
    pub fn clause(&self, index: usize) -> Option<&[Literal]>
        ensures { MatchOption result (length (clauses_of self.now) ≤ index) (λ c. (index < length (clauses_of self.now)) × (c.now ≡ slice_index_or (clauses_of self.now) index [])) }
    {
        let stretch = self.stretches.as_slice().get(index)?;
        Some(stretch.part_of(self.literals.as_slice()))
    }

    // Whether the assignment meets one clause, or None where there is no clause of this index.
    pub fn is_clause_met_by(&self, index: usize, assignment: &[u8]) -> Option<bool>
        ensures { result ≡ (if nat_lt index (length (clauses_of self.now)) then Some (met assignment.now (slice_index_or (clauses_of self.now) index [])) else None) }
    {
        self.clause(index).map(|clause| is_met(assignment, clause))
    }

    // Whether the assignment meets every clause.
    pub fn is_met_by(&self, assignment: &[u8]) -> bool
        ensures value { result ≡ all_met assignment.now (clauses_of self.now) }
        ensures decides { Decides result (EachHasTrue assignment.now (clauses_of self.now)) }
    {
        let literals = self.literals.as_slice();
        'clauses: for stretch in self.stretches.as_slice() {
            for literal in stretch.part_of(literals) {
                if is_true(assignment, *literal) {
                    continue 'clauses;
                }
            }
            return false;
        }
        true
    }
}
