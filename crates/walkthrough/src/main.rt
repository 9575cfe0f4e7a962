// Plays two orders and prints each call with its answer: one over signals and a current, one over a stall that is described by
// clauses of its own.
#![tactic(auto)]

mod calls;
mod order;
mod stall;
mod telling;

use crate::calls::ATOMS;
use crate::stall::{describe, tell_stall};
use crate::telling::tell;
use std::io;

fn main(rt: HostRuntime) -> io::Result<()> {
    println!(rt; "{ATOMS} atoms: 1 raw output, 2 filter, 3 brake")?;
    println!(rt; "signals: raw output joins 1 to 2, brake 2 to 1")?;
    println!(rt; "current: at most 380 mA; raw output 300, filter 250, brake 100")?;
    for turn in &order::play_order(rt.alloc())? {
        tell(&rt, turn)?;
    }
    println!(rt;
        "stall: raw output on, brake off, and the carriage, which no order names, at its turn"
    )?;
    let mut veto = describe()?;
    for setting in [[1, 2, 2], [1, 2, 0], [1, 1, 0], [1, 1, 1]] {
        tell_stall(&rt, &mut veto, &setting)?;
    }
    for turn in &stall::play_order(rt.alloc(), veto)? {
        tell(&rt, turn)?;
    }
    Ok(())
}
