// A veto that passes everything on to another and counts how often it is examined: once at each node of a search at which the
// clauses have nothing more to say.
ghost use Rattle.std.proofs.Common.{rules};

use refusals::Refusal;
use std::cell::Cell;
use vetoes::veto::{Verdict, Veto};

#[derive(Drop)]
pub(crate) struct Counting<'a, V> {
    veto: V,
    nodes: &'a Cell<u64>,
}

impl<'a, V: Veto> Counting<'a, V> {
    pub(crate) fn new(veto: V, nodes: &'a Cell<u64>) -> Counting<'a, V> {
        Counting { veto, nodes }
    }
}

impl<V: Veto> Veto for Counting<'_, V> {
    ghost means = { λ v. V.Veto.means v.veto };

    ghost lawful = { Prim.search rules };

    fn reach(&self) -> usize {
        self.veto.reach()
    }

    fn examine(&mut self, assignment: &[u8], ticks: &mut [u8]) -> Result<Verdict, Refusal> {
        self.nodes.set(self.nodes.get().saturating_add(1));
        self.veto.examine(assignment, ticks)
    }
}
