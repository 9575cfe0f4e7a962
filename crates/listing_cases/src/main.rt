// Listings of small sessions: every line, until none is left.
#![tactic(auto)]

use assignments::Literal;
use cycles::arc::Arc;
use cycles::cycle::Cycle;
use listing::LISTING_LIMIT;
use listing::listing::Listing;
use refusals::Refusal;
use session::session::Session;
use std::io;
use vetoes::mute::Mute;
use vetoes::veto::Veto;

// The head, the settings, the last line, and one call more.
const CALL_LIMIT: usize = LISTING_LIMIT + 3;

fn list<V: Veto + Drop>(rt: &HostRuntime, session: Session<V>) -> io::Result<()> {
    let mut listing = match Listing::new(session, 200) {
        Ok(listing) => listing,
        Err(refusal) => return println!(rt; "refused {}", refusal.number()),
    };
    for _ in 0..CALL_LIMIT {
        let Some(line) = listing.next_line() else {
            return println!(rt; "no line");
        };
        println!(rt; "{line}")?;
    }
    Ok(())
}

// A session of so many atoms that holds the clauses.
fn held<V: Veto + Drop>(
    veto: V,
    atoms: usize,
    clauses: &[&[Literal]],
) -> Result<Session<V>, Refusal> {
    let mut session = Session::new(veto);
    session.size(atoms)?;
    for clause in clauses {
        session.clause(clause)?;
    }
    Ok(session)
}

fn list_held<V: Veto + Drop>(
    rt: &HostRuntime,
    held: Result<Session<V>, Refusal>,
) -> io::Result<()> {
    match held {
        Ok(session) => list(rt, session),
        Err(refusal) => println!(rt; "refused {}", refusal.number()),
    }
}

fn list_case<V: Veto + Drop>(rt: &HostRuntime, veto: V, case: Case) -> io::Result<()> {
    println!(rt; "{}", case.what)?;
    list_held(rt, held(veto, case.atoms, case.clauses))
}

// A session that has handed out an assignment.
fn handed_out() -> Result<Session<Mute>, Refusal> {
    let mut session = held(Mute, 2, &[&[2]])?;
    session.next(&mut [0; 2])?;
    Ok(session)
}

// It is listed from the start.
fn midway(rt: &HostRuntime) -> io::Result<()> {
    println!(rt; "2 atoms, after 01")?;
    list_held(rt, handed_out())
}

// The atoms and the clauses of a session, with a text that tells them.
#[derive(Clone, Copy)]
struct Case<'a> {
    what: &'a str,
    atoms: usize,
    clauses: &'a [&'a [Literal]],
}

const FEW: [Case; 3] = [
    Case {
        what: "no atoms",
        atoms: 0,
        clauses: &[],
    },
    Case {
        what: "no atoms, an empty clause",
        atoms: 0,
        clauses: &[&[]],
    },
    Case {
        what: "2 atoms, clause 1 2",
        atoms: 2,
        clauses: &[&[1, 2]],
    },
];

const OVER_A_CYCLE: Case = Case {
    what: "arcs both ways by 1 and 2",
    atoms: 2,
    clauses: &[],
};

const MANY: [Case; 3] = [
    Case {
        what: "7 atoms, 100 settings",
        atoms: 7,
        clauses: &[&[-1, -2, -3], &[-1, -2, -4], &[-1, -2, -5]],
    },
    Case {
        what: "7 atoms, 101 settings",
        atoms: 7,
        clauses: &[
            &[-1, -2, -3],
            &[-1, -2, -4],
            &[-1, -2, -5, -6],
            &[-1, -2, -5, -7],
        ],
    },
    Case {
        what: "7 atoms",
        atoms: 7,
        clauses: &[],
    },
];

fn list_mute(rt: &HostRuntime, cases: &[Case]) -> io::Result<()> {
    for case in cases {
        list_case(rt, Mute, *case)?;
    }
    Ok(())
}

fn list_cycle(rt: &HostRuntime) -> io::Result<()> {
    let arcs = [(1, 1, 2), (2, 2, 1)].map(|(atom, from, to)| Arc { atom, from, to });
    list_case(rt, Cycle::new(&arcs[..]), OVER_A_CYCLE)
}

fn main(rt: HostRuntime) -> io::Result<()> {
    println!(rt; "unsized")?;
    list(&rt, Session::new(Mute))?;
    list_mute(&rt, &FEW)?;
    midway(&rt)?;
    list_cycle(&rt)?;
    list_mute(&rt, &MANY)
}
