// Literals and clauses at an assignment.
ghost use Rattle.std.specs.Prelude.{◌≡◌, is_some};
ghost use Rattle.assignments.specs.Literals.{place_in, true_at, met, in_range, all_in_range};
ghost use Rattle.assignments.specs.Laws.{StaysMet};

use crate::Literal;

// The place of the literal's atom, where that is one of the first `atoms` atoms. Atom k stands at place k - 1.
pub fn place_of(literal: Literal, atoms: usize) -> Option<usize>
    ensures place { result ≡ place_in atoms literal }
    ensures ranged { is_some result ≡ in_range atoms literal }
{
    // of 0, which names no atom, a place past all
    let place = (literal.unsigned_abs() as usize).wrapping_sub(1);
    if place < atoms { Some(place) } else { None }
}

// Whether the literal is true: its atom is known, with its sign. 0 and atoms past the end never are.
pub fn is_true(assignment: &[u8], literal: Literal) -> bool
    ensures { result ≡ true_at assignment.now literal }
{
    let Some(place) = place_of(literal, assignment.len()) else {
        return false;
    };
    let value = assignment[place];
    if literal > 0 { value == 1 } else { value == 0 }
}

// Whether one of the clause's literals is true.
#[tactic(auto, using(crate::proofs::ClauseLaws::stays_met))]
pub fn is_met(assignment: &[u8], clause: &[Literal]) -> bool
    ensures value { result ≡ met assignment.now clause.now }
    ensures stays { StaysMet }
{
    clause.iter().any(|literal| is_true(assignment, *literal))
}

// Whether each literal names one of the first `atoms` atoms.
pub fn are_in_range(literals: &[Literal], atoms: usize) -> bool
    ensures { result ≡ all_in_range atoms literals.now }
{
    literals
        .iter()
        .all(|literal| place_of(*literal, atoms).is_some())
}
