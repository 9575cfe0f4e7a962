// The cycle veto.
ghost use Rattle.std.specs.Prelude.{◌≡◌, ℕ, List, Decides};
ghost use Rattle.cycles.specs.Cyclic.{cycle_means};
ghost use Rattle.cycles.specs.Graphs.{Closed};
ghost use Rattle.cycles.specs.Warshall.{cycle_lawful};

use crate::arc::Arc;
use crate::walk::find_chain;
use refusals::Refusal;
use vetoes::counted::highest;
use vetoes::lent::Lent;
use vetoes::marks::answer;
use vetoes::veto::{Verdict, Veto};

#[derive(Drop)]
pub struct Cycle<S> {
    arcs: S,
}

impl<S: Lent<Arc>> Cycle<S> {
    // It speaks exactly where the arcs with true atoms contain a closed chain.
    pub fn new(arcs: S) -> Cycle<S>
        ensures arcs { result.arcs ≡ arcs }
        ensures speaks { (p : List ℕ) → Decides ((cycle_means (S.Lent.items result.arcs)).speaks p) (Closed (S.Lent.items arcs) p) }
    {
        Cycle { arcs }
    }
}

impl<S: Lent<Arc>> Veto for Cycle<S> {
    ghost means = { λ v. cycle_means (S.Lent.items v.arcs) };

    ghost lawful = { λ v. cycle_lawful (S.Lent.items v.arcs) };

    fn reach(&self) -> usize {
        highest(self.arcs.as_items())
    }

    fn examine(&mut self, assignment: &[u8], ticks: &mut [u8]) -> Result<Verdict, Refusal> {
        let chain = find_chain(self.arcs.as_items(), assignment);
        let reason = chain.as_ref().map(|reason| reason.as_slice());
        answer(reason, assignment, ticks)
    }
}
