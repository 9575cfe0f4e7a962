// Worked cases of the vetoes: what each says at an assignment, and which atoms it ticks.
#![tactic(auto)]

use assignments::AtomNumber;
use cycles::arc::{Arc, SignalNumber};
use cycles::cycle::Cycle;
use digits::Digits;
use loads::kind::{Lines, Milliamperes};
use loads::load::Load;
use loads::row::Row;
use refusals::Refusal;
use std::io;
use vetoes::mute::Mute;
use vetoes::pair::Pair;
use vetoes::veto::{Verdict, Veto};

// The ticks hold 7 before the call, so that what stays can be seen.
fn show<V: Veto>(rt: &HostRuntime, name: &str, veto: &mut V, assignment: &[u8]) -> io::Result<()> {
    let mut ticks = [7; 8];
    let verdict = veto.examine(assignment, &mut ticks);
    print!(rt; "{name} at {}: ", Digits(assignment))?;
    match verdict {
        Ok(Verdict::Speaks) => print!(rt; "speaks")?,
        Ok(Verdict::Silent) => print!(rt; "silent")?,
        Err(refusal) => print!(rt; "refused {}", refusal.number())?,
    }
    println!(rt; ", ticks {}", Digits(&ticks))
}

fn arc(atom: AtomNumber, from: SignalNumber, to: SignalNumber) -> Arc {
    Arc { atom, from, to }
}

fn row<L>(atom: AtomNumber, load: L) -> Row<L> {
    Row { atom, load }
}

fn cycles(rt: &HostRuntime) -> io::Result<()> {
    let two = [arc(1, 1, 2), arc(2, 2, 1)];
    let mut veto = Cycle::new(&two[..]);
    println!(rt; "arcs 1: 1 to 2, 2: 2 to 1; reach {}", veto.reach())?;
    show(rt, "cycle", &mut veto, &[0, 0])?;
    show(rt, "cycle", &mut veto, &[0, 1])?;
    show(rt, "cycle", &mut veto, &[1, 0])?;
    show(rt, "cycle", &mut veto, &[1, 1])?;
    show(rt, "cycle", &mut veto, &[1, 2])?;
    show(rt, "cycle", &mut veto, &[1])?;
    show(rt, "cycle", &mut veto, &[1, 1, 0, 1])?;
    show(rt, "cycle", &mut veto, &[1, 1, 0, 1, 0, 1, 0, 1])?;
    show(rt, "cycle", &mut veto, &[1, 1, 0, 1, 0, 1, 0, 1, 0])?;
    let more = [
        arc(1, 1, 2),
        arc(2, 2, 3),
        arc(3, 3, 2),
        arc(4, 5, 5),
        arc(0, 6, 6),
        arc(201, 7, 7),
        arc(5, 65, 65),
        arc(6, 0, 0),
    ];
    let mut veto = Cycle::new(&more[..]);
    println!(rt;
        "arcs 1: 1 to 2, 2: 2 to 3, 3: 3 to 2, 4: 5 to 5, and four out of range; reach {}",
        veto.reach()
    )?;
    show(rt, "cycle", &mut veto, &[1, 1, 1, 0, 1, 1])?;
    show(rt, "cycle", &mut veto, &[0, 1, 0, 1, 1, 1])?;
    show(rt, "cycle", &mut veto, &[1, 1, 0, 0, 1, 1])
}

fn amperes(rt: &HostRuntime) -> io::Result<()> {
    let rows: [Row<Milliamperes>; 4] = [row(9, 500), row(1, 300), row(2, 200), row(3, 1)];
    let mut veto = Load::new(&rows[..]);
    println!(rt; "limit 500 mA, loads 300, 200, 1; reach {}", veto.reach())?;
    show(rt, "load", &mut veto, &[1, 1, 0])?;
    show(rt, "load", &mut veto, &[1, 1, 1])?;
    show(rt, "load", &mut veto, &[1, 1, 2])?;
    show(rt, "load", &mut veto, &[1, 1])?;
    let most = [
        row(0, Milliamperes::MAX - 1),
        row(1, Milliamperes::MAX),
        row(2, Milliamperes::MAX),
        row(201, 1),
    ];
    let mut veto = Load::new(&most[..]);
    println!(rt;
        "limit 4294967294 mA, two loads of 4294967295 and one out of range; reach {}",
        veto.reach()
    )?;
    show(rt, "load", &mut veto, &[0, 0])?;
    show(rt, "load", &mut veto, &[1, 1])?;
    let none: [Row<Milliamperes>; 0] = [];
    let mut veto = Load::new(&none[..]);
    println!(rt; "no row; reach {}", veto.reach())?;
    show(rt, "load", &mut veto, &[1, 1])
}

fn lines(rt: &HostRuntime) -> io::Result<()> {
    let rows: [Row<Lines>; 4] = [row(0, 1), row(1, 1 << 15), row(2, 1 << 1), row(3, 1 << 15)];
    let mut veto = Load::new(&rows[..]);
    println!(rt;
        "limit one line, loads line 16, line 2, line 16; reach {}",
        veto.reach()
    )?;
    show(rt, "lines", &mut veto, &[1, 0, 0])?;
    show(rt, "lines", &mut veto, &[1, 0, 1])?;
    show(rt, "lines", &mut veto, &[1, 1, 0])
}

fn pairs(rt: &HostRuntime) -> io::Result<()> {
    let arcs = [arc(1, 1, 1)];
    let rows: [Row<Milliamperes>; 2] = [row(0, 10), row(2, 11)];
    let mut veto = Pair::new(Cycle::new(&arcs[..]), Pair::new(Load::new(&rows[..]), Mute));
    println!(rt;
        "pair of arc 1: 1 to 1 with the pair of limit 10 mA, load 11, and mute; reach {}",
        veto.reach()
    )?;
    show(rt, "pair", &mut veto, &[0, 0])?;
    show(rt, "pair", &mut veto, &[1, 0])?;
    show(rt, "pair", &mut veto, &[0, 1])?;
    show(rt, "pair", &mut veto, &[1, 1])?;
    let mut mute = Mute;
    println!(rt; "mute; reach {}", mute.reach())?;
    show(rt, "mute", &mut mute, &[1, 1])?;
    show(rt, "mute", &mut mute, &[1, 1, 1, 1, 1, 1, 1, 1, 1])
}

// Each of 64 signals leads to all that come after it, as far as 400 arcs go, and the last of the arcs closes a chain.
fn dense(rt: &HostRuntime) -> io::Result<()> {
    let mut arcs = [arc(1, 1, 2); 400];
    let pairs = (1..=50)
        .rev()
        .flat_map(|from| (from + 1..=64).map(move |to| (from, to)));
    for (slot, (from, to)) in arcs.iter_mut().zip(pairs) {
        *slot = arc(1, from, to);
    }
    let mut ticks = [7; 250];
    let verdict = Cycle::new(&arcs[..]).examine(&[1; 250], &mut ticks);
    println!(rt;
        "400 arcs from lower to higher signals, at 250 bytes: {}",
        told(verdict, &ticks)
    )?;
    arcs[399] = arc(200, 64, 40);
    let mut veto = Cycle::new(&arcs[..]);
    let verdict = veto.examine(&[1; 250], &mut ticks);
    println!(rt;
        "with an arc 200: 64 to 40: {}; reach {}, atom 200 {}",
        told(verdict, &ticks),
        veto.reach(),
        ticks[199]
    )
}

// The verdict, where the ticks of atom 1 and of byte 250, which is no atom, agree with it; both are 7 before the call.
fn told(verdict: Result<Verdict, Refusal>, ticks: &[u8; 250]) -> &'static str {
    match (verdict, ticks) {
        (Ok(Verdict::Speaks), [1, .., 0]) => "speaks",
        (Ok(Verdict::Silent), [7, .., 7]) => "silent",
        _ => "neither",
    }
}

fn main(rt: HostRuntime) -> io::Result<()> {
    cycles(&rt)?;
    amperes(&rt)?;
    lines(&rt)?;
    pairs(&rt)?;
    dense(&rt)
}
