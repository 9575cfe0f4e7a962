// The search on worked cases: what it finds, what it answers where nothing is left, and what it refuses.
#![tactic(auto)]

use assignments::orders::is_part;
use assignments::{ATOM_LIMIT, Literal};
use clauses::book::ClauseBook;
use cycles::arc::Arc;
use cycles::cycle::Cycle;
use digits::Digits;
use refusals::Refusal;
use search::find::{Finding, find_least};
use std::io;
use vetoes::mute::Mute;
use vetoes::veto::Veto;

// Eight atoms at most; the ticks hold 7 before the call, so that what stays can be seen.
fn show<V: Veto>(
    rt: &HostRuntime,
    book: &ClauseBook,
    veto: &mut V,
    assignment: &mut [u8],
    from: usize,
) -> io::Result<()> {
    let mut ticks = [7; 8];
    print!(rt; "{} with {from} frozen: ", Digits(assignment))?;
    match find_least(book, veto, assignment, from, &mut ticks) {
        Ok(Finding::Found) => print!(rt; "found")?,
        Ok(Finding::Nothing) => print!(rt; "nothing")?,
        Err(refusal) => print!(rt; "refused {}", refusal.number())?,
    }
    println!(rt; ", {}, ticks {}", Digits(assignment), Digits(&ticks))
}

// Three pigeons in two holes: pigeon 1 has atoms 1 and 2, pigeon 2 has 3 and 4, pigeon 3 has 5 and 6; 7 and 8 are free.
const PIGEONS: [[Literal; 2]; 9] = [
    [1, 2],
    [3, 4],
    [5, 6],
    [-1, -3],
    [-1, -5],
    [-3, -5],
    [-2, -4],
    [-2, -6],
    [-4, -6],
];

fn pigeons(rt: &HostRuntime) -> io::Result<()> {
    let mut book = ClauseBook::fresh(8)?;
    for clause in PIGEONS {
        book.add(&clause)?;
    }
    println!(rt; "three pigeons in two holes")?;
    show(rt, &book, &mut Mute, &mut [2; 8], 0)?;
    show(rt, &book, &mut Mute, &mut [1, 2, 2, 2, 2, 2, 0, 1], 0)?;
    Ok(())
}

fn choices(rt: &HostRuntime) -> io::Result<()> {
    let mut book = ClauseBook::fresh(9)?;
    println!(rt; "no clause")?;
    show(rt, &book, &mut Mute, &mut [], 0)?;
    show(rt, &book, &mut Mute, &mut [2, 1, 9], 0)?;
    book.add(&[1, 2])?;
    book.add(&[-2, 3])?;
    println!(rt; "1 or 2, not 2 or 3")?;
    show(rt, &book, &mut Mute, &mut [2, 2, 2], 0)?;
    show(rt, &book, &mut Mute, &mut [2, 2, 2], 1)?;
    show(rt, &book, &mut Mute, &mut [2, 2, 0], 1)?;
    show(rt, &book, &mut Mute, &mut [0, 2, 0, 1], 0)?;
    show(rt, &book, &mut Mute, &mut [2, 2, 2, 2, 2, 2, 2, 2, 2], 0)?;
    Ok(())
}

fn loops(rt: &HostRuntime) -> io::Result<()> {
    let arcs = [(1, 1, 2), (2, 2, 1), (3, 2, 3)].map(|(atom, from, to)| Arc { atom, from, to });
    let mut veto = Cycle::new(&arcs[..]);
    println!(rt; "arcs 1: 1 to 2, 2: 2 to 1, 3: 2 to 3")?;
    let mut book = ClauseBook::fresh(3)?;
    book.add(&[1])?;
    book.add(&[2, 3])?;
    show(rt, &book, &mut veto, &mut [2, 2, 2], 0)?;
    show(rt, &book, &mut veto, &mut [2, 2, 0], 0)?;
    Ok(())
}

// Two hundred atoms: each is joined to the next by "this one or not the next", and the last has to be true.
fn chain() -> Result<ClauseBook, Refusal> {
    let mut book = ClauseBook::fresh(ATOM_LIMIT)?;
    for atom in 1..200 {
        book.add(&[atom, -1 - atom])?;
    }
    book.add(&[200])?;
    Ok(book)
}

fn whole_chain(rt: &HostRuntime) -> io::Result<()> {
    let book = chain()?;
    let mut assignment = [2; ATOM_LIMIT];
    let mut ticks = [0; ATOM_LIMIT];
    match find_least(&book, &mut Mute, &mut assignment, 0, &mut ticks)? {
        Finding::Found => {
            let ones = is_part(&[1; ATOM_LIMIT], &assignment);
            println!(rt; "chain of 200: found, all true: {ones}")?;
        }
        Finding::Nothing => println!(rt; "chain of 200: not found")?,
    }
    Ok(())
}

fn main(rt: HostRuntime) -> io::Result<()> {
    choices(&rt)?;
    pigeons(&rt)?;
    loops(&rt)?;
    whole_chain(&rt)
}
