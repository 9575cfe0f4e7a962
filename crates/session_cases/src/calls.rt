// Calls of a session as steps of a table, each told with its answer and with what its buffers hold then.
use assignments::Literal;
use cycles::arc::Arc;
use digits::Digits;
use refusals::Refusal;
use session::session::Session;
use session::table::{Step, Wish};
use std::io;
use vetoes::veto::Veto;

// A buffer holds 7 in each byte before the call, so that what stays can be seen.
#[derive(Clone, Copy)]
pub(crate) enum Call<'a> {
    Size(usize),
    Clause(&'a [Literal]),
    // the same call so many times, told by the text and answered with the first refusal
    Clauses(&'a str, usize, &'a [Literal]),
    Open,
    Opens(&'a str, usize),
    Close,
    Closes(&'a str, usize),
    Rewind,
    // with a buffer of so many bytes
    Next(usize),
    // with a buffer of so many bytes for the assignment, and one for the ticks
    Ask(&'a [Literal], usize, usize),
}

// No buffer has more bytes.
const MOST: usize = 5;

// An arc by atom 1 and one back by atom 2.
pub(crate) const BOTH_WAYS: [Arc; 2] = [
    Arc {
        atom: 1,
        from: 1,
        to: 2,
    },
    Arc {
        atom: 2,
        from: 2,
        to: 1,
    },
];

fn hold<V: Veto>(
    session: &mut Session<V>,
    times: usize,
    clause: &[Literal],
) -> Result<(), Refusal> {
    for _ in 0..times {
        session.clause(clause)?;
    }
    Ok(())
}

fn open<V: Veto>(session: &mut Session<V>, times: usize) -> Result<(), Refusal> {
    for _ in 0..times {
        session.open()?;
    }
    Ok(())
}

fn close<V: Veto>(session: &mut Session<V>, times: usize) -> Result<(), Refusal> {
    for _ in 0..times {
        session.close()?;
    }
    Ok(())
}

fn tell(rt: &HostRuntime, answer: Result<(), Refusal>) -> io::Result<()> {
    match answer {
        Ok(()) => println!(rt; ": accepted"),
        Err(refusal) => println!(rt; ": refused {}", refusal.number()),
    }
}

fn tell_literals(rt: &HostRuntime, literals: &[Literal]) -> io::Result<()> {
    for literal in literals {
        print!(rt; " {literal}")?;
    }
    Ok(())
}

fn next<V: Veto>(rt: &HostRuntime, session: &mut Session<V>, room: usize) -> io::Result<()> {
    let mut bytes = [7; MOST];
    let out = &mut bytes[..room.min(MOST)];
    match session.next(out) {
        Ok(Step::Handed) => println!(rt; ": {}", Digits(out)),
        Ok(Step::NoMore) => println!(rt; ": no more, {}", Digits(out)),
        Err(refusal) => println!(rt; ": refused {}, {}", refusal.number(), Digits(out)),
    }
}

fn tell_wish(rt: &HostRuntime, wish: Result<Wish, Refusal>) -> io::Result<()> {
    match wish {
        Ok(Wish::Chosen) => print!(rt; ": found"),
        Ok(Wish::Clash) => print!(rt; ": none"),
        Err(refusal) => print!(rt; ": refused {}", refusal.number()),
    }
}

fn ask<V: Veto>(
    rt: &HostRuntime,
    session: &mut Session<V>,
    assumed: &[Literal],
    room: usize,
    tick_room: usize,
) -> io::Result<()> {
    let mut bytes = [7; MOST];
    let mut tick_bytes = [7; MOST];
    let out = &mut bytes[..room.min(MOST)];
    let ticks = &mut tick_bytes[..tick_room.min(MOST)];
    tell_literals(rt, assumed)?;
    tell_wish(rt, session.ask(assumed, out, ticks))?;
    println!(rt; ", {}, ticks {}", Digits(out), Digits(ticks))
}

// What the call is, without its literals.
fn tell_name(rt: &HostRuntime, call: Call) -> io::Result<()> {
    match call {
        Call::Size(atoms) => print!(rt; "size {atoms}"),
        Call::Clause(_) => print!(rt; "clause"),
        Call::Open => print!(rt; "open"),
        Call::Close => print!(rt; "close"),
        Call::Clauses(what, _, _) | Call::Opens(what, _) | Call::Closes(what, _) => {
            print!(rt; "{what}")
        }
        Call::Rewind => print!(rt; "rewind"),
        Call::Next(_) => print!(rt; "next"),
        Call::Ask(_, _, _) => print!(rt; "ask"),
    }
}

fn play_call<V: Veto>(rt: &HostRuntime, session: &mut Session<V>, call: Call) -> io::Result<()> {
    match call {
        Call::Size(atoms) => tell(rt, session.size(atoms)),
        Call::Clause(clause) => {
            tell_literals(rt, clause)?;
            tell(rt, session.clause(clause))
        }
        Call::Clauses(_, times, clause) => tell(rt, hold(session, times, clause)),
        Call::Open => tell(rt, session.open()),
        Call::Opens(_, times) => tell(rt, open(session, times)),
        Call::Close => tell(rt, session.close()),
        Call::Closes(_, times) => tell(rt, close(session, times)),
        Call::Rewind => tell(rt, session.rewind()),
        Call::Next(room) => next(rt, session, room),
        Call::Ask(assumed, room, tick_room) => ask(rt, session, assumed, room, tick_room),
    }
}

// The calls of one case on a fresh session.
pub(crate) fn play<V: Veto + Drop>(
    rt: &HostRuntime,
    what: &str,
    veto: V,
    calls: &[Call],
) -> io::Result<()> {
    let mut session = Session::new(veto);
    println!(rt; "{what}")?;
    for call in calls {
        tell_name(rt, *call)?;
        play_call(rt, &mut session, *call)?;
    }
    Ok(())
}
