// A call of a nest or of a session over one, told with its answer and with what its buffers hold then.
use assignments::Literal;
use digits::Digits;
use refusals::Refusal;
use session::session::Session;
use session::table::{Step, Wish};
use std::fmt::Display;
use std::io;
use vetoes::veto::{Verdict, Veto};

pub(crate) fn tell<D: Display + Drop>(
    rt: &HostRuntime,
    what: D,
    answer: Result<(), Refusal>,
) -> io::Result<()> {
    match answer {
        Ok(()) => println!(rt; "{what}: accepted"),
        Err(refusal) => println!(rt; "{what}: refused {}, {refusal}", refusal.number()),
    }
}

pub(crate) fn examine_into<V: Veto>(
    rt: &HostRuntime,
    veto: &mut V,
    assignment: &[u8],
    ticks: &mut [u8],
) -> io::Result<()> {
    let verdict = veto.examine(assignment, ticks);
    print!(rt; "at {}: ", Digits(assignment))?;
    match verdict {
        Ok(Verdict::Speaks) => print!(rt; "speaks")?,
        Ok(Verdict::Silent) => print!(rt; "silent")?,
        Err(refusal) => print!(rt; "refused {}", refusal.number())?,
    }
    println!(rt; ", ticks {}", Digits(ticks))
}

// The reach, and the verdict at each assignment. The ticks hold 7 before the call, so that what stays can be seen.
pub(crate) fn examine_all<V: Veto, const N: usize>(
    rt: &HostRuntime,
    veto: &mut V,
    assignments: &[[u8; N]],
) -> io::Result<()> {
    println!(rt; "reach {}", veto.reach())?;
    for assignment in assignments {
        examine_into(rt, veto, assignment, &mut [7; 4])?;
    }
    Ok(())
}

// Whatever the session hands out from where it stands, at most eight assignments.
pub(crate) fn list<V: Veto>(rt: &HostRuntime, session: &mut Session<V>) -> io::Result<()> {
    for _ in 0..8 {
        let mut out = [7; 4];
        match session.next(&mut out) {
            Ok(Step::Handed) => println!(rt; "next: {}", Digits(&out))?,
            Ok(Step::NoMore) => return println!(rt; "next: no more, {}", Digits(&out)),
            Err(refusal) => return println!(rt; "next: refused {}", refusal.number()),
        }
    }
    Ok(())
}

pub(crate) fn ask<V: Veto>(
    rt: &HostRuntime,
    session: &mut Session<V>,
    assumed: &[Literal],
) -> io::Result<()> {
    let mut out = [7; 4];
    let mut ticks = [7; 4];
    print!(rt; "ask")?;
    for literal in assumed {
        print!(rt; " {literal}")?;
    }
    match session.ask(assumed, &mut out, &mut ticks) {
        Ok(Wish::Chosen) => print!(rt; ": found")?,
        Ok(Wish::Clash) => print!(rt; ": none")?,
        Err(refusal) => print!(rt; ": refused {}", refusal.number())?,
    }
    println!(rt; ", {}, ticks {}", Digits(&out), Digits(&ticks))
}
