// An arc between two signals, there where its atom is true.
ghost use Rattle.std.specs.Prelude.{◌≡◌};
ghost use Rattle.cycles.specs.Arcs.{counted_arc, is_signal};
ghost use Rattle.std.proofs.Common.{rules};

use assignments::{ATOM_LIMIT, AtomNumber};
use vetoes::counted::Counted;

// Signals are numbered from 1 to this limit.
pub const SIGNAL_LIMIT: usize = 64;

pub type SignalNumber = u8;

#[derive(Clone, Copy, PartialEq, Eq, Debug)]
pub struct Arc {
    pub atom: AtomNumber,
    pub from: SignalNumber,
    pub to: SignalNumber,
}

fn is_signal(number: SignalNumber) -> bool
    ensures { result ≡ is_signal number }
{
    (1..=SIGNAL_LIMIT).contains(&(number as usize))
}

// An arc with an atom or a signal out of range does not count.
impl Counted for Arc {
    ghost counted = { counted_arc };

    ghost few = { Prim.search rules };

    fn counted_atom(&self) -> AtomNumber {
        if self.atom as usize <= ATOM_LIMIT && is_signal(self.from) && is_signal(self.to) {
            self.atom
        } else {
            0
        }
    }
}
