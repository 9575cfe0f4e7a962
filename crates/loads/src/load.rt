// The load veto, for every load kind.
ghost use Rattle.std.specs.Prelude.{◌≡◌};
ghost use Rattle.loads.specs.Rows.{load_means};
ghost use Rattle.loads.specs.Sums.{load_lawful};

use crate::kind::LoadKind;
use crate::row::Row;
use crate::total::{explain, total_of};
use refusals::Refusal;
use std::marker::PhantomData;
use vetoes::counted::highest;
use vetoes::lent::Lent;
use vetoes::marks::answer;
use vetoes::veto::{Verdict, Veto};

// The first row is the limit, its atom ignored. Without a row there is no limit, and the veto never speaks.
#[derive(Drop)]
pub struct Load<L, S> {
    kind: PhantomData<L>,
    rows: S,
}

impl<L: LoadKind, S: Lent<Row<L>>> Load<L, S> {
    // It speaks exactly where the joined loads of the later rows with true atoms are over the limit.
    pub fn new(rows: S) -> Load<L, S>
        ensures { result.rows ≡ rows }
    {
        Load {
            kind: PhantomData,
            rows,
        }
    }
}

impl<L: LoadKind, S: Lent<Row<L>>> Veto for Load<L, S> {
    ghost means = { λ v. load_means L.LoadKind.EMPTY L.LoadKind.join L.LoadKind.over (S.Lent.items v.rows) };

    ghost lawful = { λ v. load_lawful L.LoadKind.EMPTY L.LoadKind.join L.LoadKind.assoc L.LoadKind.comm L.LoadKind.over L.LoadKind.stays (S.Lent.items v.rows) };

    fn reach(&self) -> usize {
        match self.rows.as_items() {
            [] => 0,
            [_, later @ ..] => highest(later),
        }
    }

    fn examine(&mut self, assignment: &[u8], ticks: &mut [u8]) -> Result<Verdict, Refusal> {
        match self.rows.as_items() {
            [limit, later @ ..] if total_of(assignment, later).is_over(limit.load) => {
                let reason = explain(assignment, later, limit.load);
                answer(Some(reason.as_slice()), assignment, ticks)
            }
            _ => answer(None, assignment, ticks),
        }
    }
}
