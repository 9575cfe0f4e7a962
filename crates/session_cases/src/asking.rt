// What ask finds, and which assumptions clash where it finds none.
use crate::calls::{BOTH_WAYS, Call, play};
use cycles::cycle::Cycle;
use std::io;
use vetoes::mute::Mute;

// Of equal assumptions that clash with a clause one is needed, and of two that differ in sign both.
const EQUAL_ASSUMPTIONS: &[Call] = &[
    Call::Size(2),
    Call::Ask(&[2, -2], 4, 4),
    Call::Ask(&[1, 1, 1], 4, 4),
    Call::Ask(&[1, -1, 1, -1], 4, 4),
    Call::Clause(&[-1]),
    Call::Ask(&[1, 1, 2], 4, 4),
    Call::Ask(&[2, 1, 1], 4, 4),
];

// No clause; then no atom; then nothing that is admitted, so that no assumption is needed for the clash.
const EMPTY_PROBLEM: &[Call] = &[
    Call::Size(3),
    Call::Ask(&[], 4, 4),
    Call::Ask(&[2], 4, 4),
    Call::Ask(&[-1, -3], 4, 4),
    Call::Size(0),
    Call::Ask(&[], 4, 4),
    Call::Clause(&[]),
    Call::Ask(&[], 4, 4),
];

const OVER_A_CYCLE: &[Call] = &[
    Call::Size(3),
    Call::Ask(&[], 4, 4),
    Call::Ask(&[2, -2], 4, 4),
    Call::Ask(&[3, 3], 4, 4),
    Call::Ask(&[3, 1, 2], 4, 4),
    Call::Ask(&[2, -1], 4, 4),
    Call::Clause(&[1]),
    Call::Ask(&[3, 2], 4, 4),
    Call::Next(4),
    Call::Next(4),
    Call::Next(4),
    Call::Clause(&[]),
    Call::Ask(&[3, 2], 4, 4),
];

pub(crate) fn asking(rt: &HostRuntime) -> io::Result<()> {
    let cycle = Cycle::new(&BOTH_WAYS[..]);
    play(rt, "equal assumptions", Mute, EQUAL_ASSUMPTIONS)?;
    play(rt, "an empty problem", Mute, EMPTY_PROBLEM)?;
    play(rt, "arcs both ways by 1 and 2", cycle, OVER_A_CYCLE)
}
