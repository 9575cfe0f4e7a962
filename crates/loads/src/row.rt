// A row: a load that counts where its atom is true.
ghost use Rattle.loads.specs.Rows.{counted_row};
ghost use Rattle.std.proofs.Common.{rules};

use assignments::{ATOM_LIMIT, AtomNumber};
use vetoes::counted::Counted;

#[derive(Clone, Copy, PartialEq, Eq, Debug)]
pub struct Row<L> {
    pub atom: AtomNumber,
    pub load: L,
}

// A row with an atom out of range does not count.
impl<L> Counted for Row<L> {
    ghost counted = { counted_row };

    ghost few = { Prim.search rules };

    fn counted_atom(&self) -> AtomNumber {
        if self.atom as usize > ATOM_LIMIT {
            0
        } else {
            self.atom
        }
    }
}
