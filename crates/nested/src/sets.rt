// Complements, unions and projections of the assignments that vetoes leave, as nests.
ghost use Rattle.std.specs.Prelude.{◌≡◌, ℕ, ◌+◌, ◌≤◌, max, take, length, Some, IfOk, Decides};
ghost use Rattle.std.specs.Result.{result_err};
ghost use Rattle.assignments.specs.Limits.{atom_limit};
ghost use Rattle.vetoes.specs.Meaning.{either};
ghost use Rattle.vetoes.specs.Solutions.{Solution};
ghost use Rattle.nested.specs.Plans.{plan_of};
ghost use Rattle.nested.specs.Sets.{Complement, Union, Projection, Excluded, first_atoms as «first-atoms», over_first as «over-first», refusal_of_atoms};
ghost use Rattle.nested.specs.Shaping.{refusal_of_shaping, shaped};

use crate::nested::Nested;
use assignments::{ATOM_LIMIT, AtomNumber};
use refusals::Refusal;
use vetoes::marks::blank_marks;
use vetoes::pair::Pair;
use vetoes::veto::{Verdict, Veto};

// Each atom there can be, in order.
fn all_atoms() -> [AtomNumber; ATOM_LIMIT]
    ensures long { length result ≡ atom_limit }
    ensures atoms { (n : ℕ) → n ≤ atom_limit → take n result ≡ «first-atoms» n }
{
    let mut atoms = [0; ATOM_LIMIT];
    for (i, atom) in atoms.iter_mut().enumerate() {
        *atom = i as AtomNumber + 1;
    }
    atoms
}

// A nest without clauses that sees the first atoms of its host, each under its own number.
pub fn over_first<V: Veto + Drop>(veto: V, seen: usize, own: usize) -> Result<Nested<V>, Refusal>
    ensures refused { result_err result ≡ refusal_of_shaping (V.Veto.means veto).reach («first-atoms» seen) own }
    ensures below { IfOk result (λ nest. nest.below ≡ veto) }
    ensures plan { IfOk result (λ nest. plan_of nest.shape ≡ Some (shaped («first-atoms» seen) own)) }
{
    if seen > ATOM_LIMIT {
        return Err(Refusal::CountOutOfRange);
    }
    let atoms = all_atoms();
    let mut nest = Nested::new(veto);
    nest.shape(&atoms[..seen], own)?;
    Ok(nest)
}

// Of the complete assignments of so many atoms, it leaves those that the veto does not.
pub fn complement<V: Veto + Drop>(veto: V, atoms: usize) -> Result<Nested<V>, Refusal>
    ensures refused { result_err result ≡ refusal_of_atoms (V.Veto.means veto).reach atoms }
    ensures means { IfOk result (λ nest. ⟦<Nested<V> as Veto>⟧.means nest ≡ «over-first» atoms 0 (V.Veto.means veto)) }
    ensures reach { IfOk result (λ nest. (⟦<Nested<V> as Veto>⟧.means nest).reach ≡ atoms) }
    ensures leaves { IfOk result (λ nest. Complement atoms (Solution (⟦<Nested<V> as Veto>⟧.means nest) atoms) (Solution (V.Veto.means veto) atoms)) }
{
    over_first(veto, atoms, 0)
}

// It leaves what either veto leaves.
pub fn union<A: Veto + Drop, B: Veto + Drop>(
    left: A,
    right: B,
    atoms: usize,
) -> Result<Nested<Pair<Nested<A>, Nested<B>>>, Refusal>
    ensures refused { result_err result ≡ refusal_of_atoms (max (A.Veto.means left).reach (B.Veto.means right).reach) atoms }
    ensures means { IfOk result (λ nest. ⟦<Nested<Pair<Nested<A>, Nested<B>>> as Veto>⟧.means nest ≡ «over-first» atoms 0 (either («over-first» atoms 0 (A.Veto.means left)) («over-first» atoms 0 (B.Veto.means right)))) }
    ensures reach { IfOk result (λ nest. (⟦<Nested<Pair<Nested<A>, Nested<B>>> as Veto>⟧.means nest).reach ≡ atoms) }
    ensures leaves { IfOk result (λ nest. Union (Solution (⟦<Nested<Pair<Nested<A>, Nested<B>>> as Veto>⟧.means nest) atoms) (Solution (A.Veto.means left) atoms) (Solution (B.Veto.means right) atoms)) }
{
    let left = complement(left, atoms)?;
    let right = complement(right, atoms)?;
    complement(Pair::new(left, right), atoms)
}

// It leaves the first `seen` atoms' values of what the veto leaves of `own` more atoms.
pub fn project<V: Veto + Drop>(
    veto: V,
    seen: usize,
    own: usize,
) -> Result<Nested<Nested<V>>, Refusal>
    ensures refused { result_err result ≡ refusal_of_atoms (V.Veto.means veto).reach (seen + own) }
    ensures means { IfOk result (λ nest. ⟦<Nested<Nested<V>> as Veto>⟧.means nest ≡ «over-first» seen 0 («over-first» seen own (V.Veto.means veto))) }
    ensures reach { IfOk result (λ nest. (⟦<Nested<Nested<V>> as Veto>⟧.means nest).reach ≡ seen) }
    ensures leaves { IfOk result (λ nest. Projection seen (Solution (⟦<Nested<Nested<V>> as Veto>⟧.means nest) seen) (Solution (V.Veto.means veto) (seen + own))) }
{
    complement(over_first(veto, seen, own)?, seen)
}

// Whether the assignment is complete, and no values for `own` more atoms make one that both vetoes leave.
pub fn is_excluded<A: Veto + Drop, B: Veto + Drop>(
    left: A,
    right: B,
    assignment: &[u8],
    own: usize,
) -> Result<bool, Refusal>
    ensures refused { result_err result ≡ refusal_of_atoms (max (A.Veto.means left).reach (B.Veto.means right).reach) (length assignment.now + own) }
    ensures value { IfOk result (λ out. Decides out (Excluded (A.Veto.means left) (B.Veto.means right) own assignment.now)) }
{
    let mut nest = project(Pair::new(left, right), assignment.len(), own)?;
    let mut ticks = blank_marks();
    match nest.examine(assignment, &mut ticks)? {
        Verdict::Speaks => Ok(true),
        Verdict::Silent => Ok(false),
    }
}
