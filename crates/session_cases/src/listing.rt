// What next hands out: over no atom, over two, and as clauses come and go.
use crate::calls::{Call, play};
use std::io;
use vetoes::mute::Mute;

const NO_ATOM: &[Call] = &[
    Call::Size(0),
    Call::Next(4),
    Call::Next(4),
    Call::Rewind,
    Call::Next(4),
    Call::Clause(&[]),
    Call::Next(4),
];

const TWO_ATOMS: &[Call] = &[
    Call::Size(2),
    Call::Clause(&[1, 2]),
    Call::Next(4),
    Call::Next(4),
    Call::Next(4),
    Call::Next(4),
    Call::Next(4),
];

// A clause that comes later keeps the position, and rules the one handed out last out.
const CLAUSE_BETWEEN: &[Call] = &[
    Call::Size(2),
    Call::Clause(&[1, 2]),
    Call::Next(4),
    Call::Clause(&[-2]),
    Call::Next(4),
    Call::Next(4),
    Call::Rewind,
    Call::Next(4),
    Call::Next(4),
];

const CLAUSE_IN_A_SCOPE: &[Call] = &[
    Call::Size(2),
    Call::Clause(&[1, 2]),
    Call::Next(4),
    Call::Open,
    Call::Clause(&[-2]),
    Call::Next(4),
    Call::Next(4),
    Call::Next(4),
    Call::Close,
    Call::Next(4),
    Call::Next(4),
    Call::Next(4),
    Call::Next(4),
    Call::Rewind,
    Call::Next(4),
];

pub(crate) fn listing(rt: &HostRuntime) -> io::Result<()> {
    play(rt, "no atom", Mute, NO_ATOM)?;
    play(rt, "one of two atoms", Mute, TWO_ATOMS)?;
    play(rt, "a clause after the first", Mute, CLAUSE_BETWEEN)?;
    play(rt, "a clause in a scope", Mute, CLAUSE_IN_A_SCOPE)
}
