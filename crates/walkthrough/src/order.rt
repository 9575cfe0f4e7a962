// An order over a pair of vetoes: signals that may not run in a circle, and a current that may not be too much.
use crate::calls::{ATOMS, ask, clause, next, turns};
use assignments::AtomNumber;
use cycles::arc::{Arc, SignalNumber};
use cycles::cycle::Cycle;
use loads::kind::Milliamperes;
use loads::load::Load;
use loads::row::Row;
use runs::play::play;
use runs::turn::{Call, Turn};
use std::alloc::{AllocError, Global};
use vetoes::pair::Pair;

fn arc(atom: AtomNumber, from: SignalNumber, to: SignalNumber) -> Arc {
    Arc { atom, from, to }
}

fn row(atom: AtomNumber, load: Milliamperes) -> Row<Milliamperes> {
    Row { atom, load }
}

// Its clauses (one names an atom that is not there), all settings, a wish tried out in a scope, two questions.
fn order(heap: Global) -> Result<Vec<Turn>, AllocError> {
    let calls = vec![in heap;
        Call::Size(ATOMS),
        clause(heap, &[1, 2])?,
        clause(heap, &[2, 4])?,
        next(heap)?,
        next(heap)?,
        next(heap)?,
        next(heap)?,
        Call::Open,
        clause(heap, &[-2])?,
        Call::Rewind,
        next(heap)?,
        next(heap)?,
        Call::Close,
        next(heap)?,
        ask(heap, &[3])?,
        ask(heap, &[2, 1, 3])?,
    ]?;
    turns(heap, calls)
}

// The order as it was played.
pub(crate) fn play_order(heap: Global) -> Result<Vec<Turn>, AllocError> {
    let arcs = [arc(1, 1, 2), arc(3, 2, 1)];
    let rows = [row(0, 380), row(1, 300), row(2, 250), row(3, 100)];
    let veto = Pair::new(Cycle::new(&arcs[..]), Load::new(&rows[..]));
    let mut turns = order(heap)?;
    play(veto, &mut turns);
    Ok(turns)
}
