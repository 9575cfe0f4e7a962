// Each refusal at its edge, and which of two that apply is the answer.
use crate::calls::{BOTH_WAYS, Call, play};
use cycles::cycle::Cycle;
use std::io;
use vetoes::mute::Mute;

// 1: any call but size, also where its buffers are short.
const NO_SIZE: &[Call] = &[
    Call::Clause(&[1]),
    Call::Open,
    Call::Close,
    Call::Rewind,
    Call::Next(4),
    Call::Next(0),
    Call::Ask(&[1], 4, 4),
    Call::Ask(&[0], 0, 0),
    Call::Size(201),
    Call::Next(4),
    Call::Size(200),
    Call::Clause(&[200]),
];

// 2: a buffer of one byte too few, of just enough bytes, and of some more.
const SHORT_BUFFERS: &[Call] = &[
    Call::Size(3),
    Call::Next(2),
    Call::Next(3),
    Call::Next(5),
    Call::Ask(&[1, 2], 2, 2),
    Call::Ask(&[1, 2], 3, 1),
    Call::Ask(&[1, 2], 3, 2),
    Call::Ask(&[1, 2], 5, 4),
    Call::Ask(&[1, -1], 2, 2),
    Call::Ask(&[1, -1], 3, 1),
    Call::Ask(&[1, -1], 5, 4),
    Call::Ask(&[1, 4], 3, 1),
    Call::Clause(&[]),
    Call::Next(2),
    Call::Next(3),
    Call::Next(2),
];

// 3 and 4: at the atom limit, and at the reach of a veto that looks at two atoms.
const SIZES: &[Call] = &[
    Call::Size(0),
    Call::Size(1),
    Call::Size(2),
    Call::Next(4),
    Call::Size(1),
    Call::Size(201),
    Call::Size(usize::MAX),
    Call::Next(4),
    Call::Size(200),
    Call::Next(4),
];

// 5: a literal of a clause and of a question.
const LITERALS: &[Call] = &[
    Call::Size(3),
    Call::Clause(&[0]),
    Call::Ask(&[0], 4, 4),
    Call::Clause(&[3]),
    Call::Ask(&[3], 4, 4),
    Call::Clause(&[-3]),
    Call::Ask(&[-3], 4, 4),
    Call::Clause(&[4]),
    Call::Ask(&[4], 4, 4),
    Call::Clause(&[-4]),
    Call::Ask(&[-4], 4, 4),
    Call::Clause(&[32767]),
    Call::Ask(&[32767], 4, 4),
    Call::Clause(&[-32768]),
    Call::Ask(&[-32768], 4, 4),
    Call::Clause(&[3, 4]),
    Call::Next(4),
    Call::Size(0),
    Call::Clause(&[1]),
    Call::Ask(&[1], 4, 4),
];

// 6 and 7: one clause and one literal more than there may be.
const FULL_TABLES: &[Call] = &[
    Call::Size(2),
    Call::Clauses("400 times clause 1", 400, &[1]),
    Call::Clause(&[1]),
    Call::Clause(&[3]),
    Call::Next(4),
    Call::Size(2),
    Call::Clauses("2000 literals", 4, &[-2; 500]),
    Call::Clause(&[1]),
    Call::Clause(&[3]),
    Call::Clauses("396 times clause", 396, &[]),
    Call::Clause(&[1]),
];

// 8 and 9: one scope more than there may be, and one fewer than none. A refused call does not rewind.
const SCOPES: &[Call] = &[
    Call::Size(2),
    Call::Next(4),
    Call::Close,
    Call::Next(4),
    Call::Opens("sixteen times open", 16),
    Call::Open,
    Call::Next(4),
    Call::Closes("sixteen times close", 16),
    Call::Close,
    Call::Next(4),
    Call::Opens("sixteen times open", 16),
];

pub(crate) fn refusing(rt: &HostRuntime) -> io::Result<()> {
    let cycle = Cycle::new(&BOTH_WAYS[..]);
    play(rt, "a fresh session", Mute, NO_SIZE)?;
    play(rt, "three atoms", Mute, SHORT_BUFFERS)?;
    play(rt, "arcs both ways by 1 and 2", cycle, SIZES)?;
    play(rt, "literals over three atoms", Mute, LITERALS)?;
    play(rt, "full tables", Mute, FULL_TABLES)?;
    play(rt, "scopes", Mute, SCOPES)
}
