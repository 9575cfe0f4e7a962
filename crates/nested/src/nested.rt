// The nest: a veto over a veto below and a book of clauses.
ghost use Rattle.std.specs.Prelude.{◌≡◌, true, is_ok, is_some, Some, None, IfSome, if◌then◌else◌};
ghost use Rattle.std.specs.Result.{result_err};
ghost use Rattle.vetoes.specs.Verdicts.{ticked};
ghost use Rattle.nested.specs.Nests.{nest_means};
ghost use Rattle.nested.specs.NestLaws.{nest_lawful};
ghost use Rattle.nested.specs.Plans.{plan_of};
ghost use Rattle.nested.specs.Sets.{NestLaw};
ghost use Rattle.nested.specs.Shaping.{refusal_of_shaping, refusal_of_clause, shaped, with_clause};

use crate::completing::complete;
use crate::explaining::explain;
use crate::mapping::{are_atoms, highest};
use crate::shape::Shape;
use assignments::{AtomNumber, Literal};
use clauses::book::ClauseBook;
use refusals::Refusal;
use tables::Table;
use vetoes::marks::answer;
use vetoes::reason::Reason;
use vetoes::veto::{Verdict, Veto};

#[derive(Drop)]
pub struct Nested<V> {
    pub(crate) below: V,
    // none before the first `shape`
    pub(crate) shape: Option<Shape>,
}

// Why a nest speaks at the assignment, if it does.
fn reason_of<'a, V: Veto>(
    shape: &Option<Shape>,
    below: &mut V,
    assignment: &'a [u8],
) -> Option<Reason<'a>>
    ensures meaning { V.Veto.means below.new ≡ V.Veto.means below.old }
    ensures value { is_some result ≡ (nest_means (plan_of shape.now) (V.Veto.means below.old)).speaks assignment.now }
    ensures of { IfSome result (λ reason. reason.assignment.now ≡ assignment.now) }
    ensures reason { IfSome result (λ reason. (nest_means (plan_of shape.now) (V.Veto.means below.old)).speaks (ticked assignment.now reason.marks) ≡ true) }
{
    let shape = shape.as_ref()?;
    let values = complete(shape, below, assignment)?;
    Some(explain(shape, below.reach(), &values, assignment))
}

impl<V: Veto> Nested<V> {
    // An unshaped nest, which never speaks.
    pub fn new(below: V) -> Nested<V>
        ensures below { result.below ≡ below }
        ensures plan { plan_of result.shape ≡ None }
    {
        Nested { below, shape: None }
    }

    // Maps the seen atoms to atoms of the host, gives the nest so many own atoms, and drops every clause.
    #[tactic(auto, using(crate::proofs::SetLaws::nest_law, crate::proofs::SetLaws::option_law))]
    pub fn shape(&mut self, map: &[AtomNumber], own: usize) -> Result<(), Refusal>
        ensures refused { result_err result ≡ refusal_of_shaping (V.Veto.means self.old.below).reach map.now own }
        ensures below { self.new.below ≡ self.old.below }
        ensures plan { plan_of self.new.shape ≡ (if is_ok result then Some (shaped map.now own) else plan_of self.old.shape) }
        ensures law { IfSome (plan_of self.new.shape) (λ f. NestLaw f (V.Veto.means self.new.below)) }
    {
        let book = ClauseBook::fresh(map.len().saturating_add(own))?;
        if self.below.reach() > book.atoms() {
            return Err(Refusal::ReachOutOfRange);
        }
        if !are_atoms(map) {
            return Err(Refusal::LiteralOutOfRange);
        }
        let mut seen = Table::new(0);
        let _ = seen.extend(map);
        self.shape = Some(Shape { map: seen, book });
        Ok(())
    }

    // One clause more over the nest's own numbering, at the end.
    #[tactic(auto, using(crate::proofs::SetLaws::nest_law, crate::proofs::SetLaws::option_law))]
    pub fn add(&mut self, clause: &[Literal]) -> Result<(), Refusal>
        ensures refused { result_err result ≡ refusal_of_clause (plan_of self.old.shape) clause.now }
        ensures below { self.new.below ≡ self.old.below }
        ensures plan { plan_of self.new.shape ≡ (if is_ok result then with_clause (plan_of self.old.shape) clause.now else plan_of self.old.shape) }
        ensures law { IfSome (plan_of self.new.shape) (λ f. NestLaw f (V.Veto.means self.new.below)) }
    {
        let shape = self.shape.as_mut().ok_or(Refusal::NotSized)?;
        shape.book.add(clause)
    }
}

impl<V: Veto> Veto for Nested<V> {
    ghost means = { λ v. nest_means (plan_of v.shape) (V.Veto.means v.below) };

    ghost lawful = { λ v. nest_lawful v.shape (V.Veto.means v.below) (V.Veto.lawful v.below) };

    fn reach(&self) -> usize {
        match &self.shape {
            Some(shape) => highest(shape.map.as_slice()),
            None => 0,
        }
    }

    fn examine(&mut self, assignment: &[u8], ticks: &mut [u8]) -> Result<Verdict, Refusal> {
        let Nested { below, shape } = self;
        let reason = reason_of(shape, below, assignment);
        answer(
            reason.as_ref().map(|reason| reason.as_slice()),
            assignment,
            ticks,
        )
    }
}
