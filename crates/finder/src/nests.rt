// The nests of a problem, each over a veto below.
ghost use Rattle.std.specs.Prelude.{◌≡◌, ℕ, ◌+◌, List, [], true, length, Some, None, IfOk, IsOk, IsOkAnd};
ghost use Rattle.tables.specs.Items.{entries};
ghost use Rattle.clauses.specs.Books.{clauses_of};
ghost use Rattle.nested.specs.Plans.{plan_of};
ghost use Rattle.nested.specs.Shaping.{refusal_of_shaping, shaped};
ghost use Rattle.nestfile.specs.Problems.{told};
ghost use Rattle.finder.specs.Fitting.{fit, with_all};
ghost use Rattle.finder.specs.Meanings.{below_means, nests_mean};

use crate::contents::entry_of;
use assignments::AtomNumber;
use clauses::book::ClauseBook;
use nested::nested::Nested;
use nestfile::Problem;
use nestformat::kinds::BodyKind;
use refusals::Refusal;
use vetoes::mute::Mute;
use vetoes::veto::Veto;

// Adds every clause of the book to a nest that has no clauses.
fn add_all<V: Veto>(nest: &mut Nested<V>, book: &ClauseBook) -> Result<(), Refusal>
    ensures below { nest.new.below ≡ nest.old.below }
    ensures plan { (m : List ℕ) (k : ℕ) → plan_of nest.old.shape ≡ Some (shaped m k) → fit (length m + k) [] (clauses_of book.now) ≡ true → IsOk result × (plan_of nest.new.shape ≡ Some (with_all m k (clauses_of book.now))) }
{
    for clause in book.clauses() {
        nest.add(clause)?;
    }
    Ok(())
}

// A nest over the veto with this map, own atoms and clauses.
fn shaped<V: Veto + Drop>(
    below: V,
    map: &[AtomNumber],
    own: usize,
    book: &ClauseBook,
) -> Result<Nested<V>, Refusal>
    ensures below { IfOk result (λ nest. nest.below ≡ below) }
    ensures plan { refusal_of_shaping (V.Veto.means below).reach map.now own ≡ None → fit (length map.now + own) [] (clauses_of book.now) ≡ true → IsOkAnd result (λ nest. plan_of nest.shape ≡ Some (with_all map.now own (clauses_of book.now))) }
{
    let mut nest = Nested::new(below);
    nest.shape(map, own)?;
    add_all(&mut nest, book)?;
    Ok(nest)
}

// The nest below the other. Where the contents name none it never speaks.
fn below_of(problem: &Problem) -> Nested<Mute>
    ensures { ⟦<Nested<Mute> as Veto>⟧.means result ≡ below_means (told problem.now) }
{
    let Some(entry) = entry_of(problem.contents(), BodyKind::Below) else {
        return Nested::new(Mute);
    };
    let Some(body) = problem.below() else {
        unreachable!()
    };
    match shaped(Mute, body.map.as_slice(), entry.own as usize, &body.book) {
        Ok(nest) => nest,
        Err(_) => unreachable!(),
    }
}

// Both nests. Where the contents name none they never speak.
pub(crate) fn nests_of(problem: &Problem) -> Nested<Nested<Mute>>
    ensures { ⟦<Nested<Nested<Mute>> as Veto>⟧.means result ≡ nests_mean (told problem.now) }
{
    let below = below_of(problem);
    let Some(entry) = entry_of(problem.contents(), BodyKind::Nest) else {
        return Nested::new(below);
    };
    let Some(body) = problem.nest() else {
        unreachable!()
    };
    match shaped(below, body.map.as_slice(), entry.own as usize, &body.book) {
        Ok(nest) => nest,
        Err(_) => unreachable!(),
    }
}
