// Two vetoes as one: it speaks where either does.
ghost use Rattle.std.specs.Prelude.{◌≡◌};
ghost use Rattle.vetoes.specs.Meaning.{either};
ghost use Rattle.vetoes.specs.Solutions.{Intersection, Solution};
ghost use Rattle.std.proofs.Common.{rules};

use crate::veto::{Verdict, Veto};
use refusals::Refusal;

#[derive(Drop)]
pub struct Pair<A, B> {
    left: A,
    right: B,
}

impl<A: Veto, B: Veto> Pair<A, B> {
    // The assignments that the pair leaves are those that both sides leave.
    pub fn new(left: A, right: B) -> Pair<A, B>
        ensures left { result.left ≡ left }
        ensures right { result.right ≡ right }
        ensures solutions { Intersection (Solution (either (A.Veto.means result.left) (B.Veto.means result.right))) (Solution (A.Veto.means left)) (Solution (B.Veto.means right)) }
    {
        Pair { left, right }
    }
}

impl<A: Veto, B: Veto> Veto for Pair<A, B> {
    ghost means = { λ v. either (A.Veto.means v.left) (B.Veto.means v.right) };

    ghost lawful = { Prim.search rules };

    fn reach(&self) -> usize {
        self.left.reach().max(self.right.reach())
    }

    fn examine(&mut self, assignment: &[u8], ticks: &mut [u8]) -> Result<Verdict, Refusal> {
        match self.left.examine(assignment, ticks)? {
            Verdict::Speaks => Ok(Verdict::Speaks),
            Verdict::Silent => self.right.examine(assignment, ticks),
        }
    }
}
