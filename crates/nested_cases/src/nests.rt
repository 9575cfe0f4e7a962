// Nests over other vetoes, nests of nests, and maps that take an atom of the host twice.
use crate::telling::{examine_all, list, tell};
use cycles::arc::Arc;
use cycles::cycle::Cycle;
use loads::kind::Milliamperes;
use loads::load::Load;
use loads::row::Row;
use nested::nested::Nested;
use nested::sets::complement;
use session::session::Session;
use vetoes::mute::Mute;
use vetoes::pair::Pair;

// The nest below is vetoed by atom 1 or 2, so the one above by whatever cannot be completed to either.
fn nest_of_a_nest(rt: &HostRuntime) -> anyhow::Result<()> {
    let mut below = Nested::new(Mute);
    below.shape(&[1, 2], 0)?;
    below.add(&[1, 2])?;
    println!(rt; "map 1 2, no own atom, clause 1 2")?;
    examine_all(rt, &mut below, &[[0, 0], [0, 2], [2, 1], [1, 0]])?;
    let mut nest = Nested::new(below);
    nest.shape(&[1], 1)?;
    println!(rt; "over it map 1, one own atom, no clause")?;
    examine_all(rt, &mut nest, &[[0], [1], [2]])?;
    let mut session = Session::new(nest);
    tell(rt, "size 1", session.size(1))?;
    list(rt, &mut session)?;
    Ok(())
}

// Both seen atoms are atom 2 of the host.
fn shared_atom(rt: &HostRuntime) -> anyhow::Result<()> {
    let mut nest = Nested::new(Mute);
    nest.shape(&[2, 2], 0)?;
    nest.add(&[1, -2])?;
    println!(rt; "map 2 2, no own atom, clause 1 -2")?;
    examine_all(rt, &mut nest, &[[0, 0], [0, 1], [0, 2]])?;
    nest.add(&[1])?;
    println!(rt; "and clause 1")?;
    examine_all(rt, &mut nest, &[[0, 0], [0, 1], [0, 2]])?;
    nest.add(&[-2])?;
    println!(rt; "and clause -2")?;
    examine_all(rt, &mut nest, &[[0, 0], [0, 1], [0, 2]])?;
    Ok(())
}

// Without own atoms there is one completion; without seen ones a nest looks at no atom.
fn no_own_atom(rt: &HostRuntime) -> anyhow::Result<()> {
    let mut nest = Nested::new(Mute);
    nest.shape(&[3, 1], 0)?;
    println!(rt; "map 3 1, no own atom, no clause")?;
    examine_all(rt, &mut nest, &[[2, 2, 2], [1, 0, 1]])?;
    nest.add(&[1, 2])?;
    println!(rt; "and clause 1 2")?;
    examine_all(rt, &mut nest, &[[2, 2, 2], [0, 1, 0], [1, 0, 0], [0, 2, 1]])?;
    nest.shape(&[], 2)?;
    println!(rt; "no seen atom, two own atoms, no clause")?;
    examine_all(rt, &mut nest, &[[2, 2, 2], [1, 0, 1]])?;
    nest.add(&[1])?;
    nest.add(&[-1])?;
    println!(rt; "and clauses 1, -1")?;
    examine_all(rt, &mut nest, &[[2, 2, 2], [1, 0, 1]])?;
    Ok(())
}

fn arc(atom: u8, from: u8, to: u8) -> Arc {
    Arc { atom, from, to }
}

fn row(atom: u8, load: Milliamperes) -> Row<Milliamperes> {
    Row { atom, load }
}

// The veto below is asked at the nest's numbering: its reach is 3, so the seen atoms 1 and 2 have to be known.
fn over_a_pair(rt: &HostRuntime) -> anyhow::Result<()> {
    let arcs = [arc(1, 1, 2), arc(3, 2, 1)];
    let rows = [row(0, 380), row(1, 300), row(2, 250), row(3, 100)];
    let below = Pair::new(Cycle::new(&arcs[..]), Load::new(&rows[..]));
    let mut nest = Nested::new(below);
    nest.shape(&[3, 2], 1)?;
    nest.add(&[1, 2])?;
    nest.add(&[3, -2])?;
    println!(rt; "over a cycle and a load: map 3 2, one own atom, clauses 1 2, 3 -2")?;
    examine_all(
        rt,
        &mut nest,
        &[
            [2, 0, 0],
            [2, 0, 1],
            [2, 1, 0],
            [2, 1, 1],
            [2, 2, 1],
            [2, 1, 2],
        ],
    )?;
    Ok(())
}

// With the identity as map, no clause and no own atom, a nest leaves what the veto below does not.
fn complements(rt: &HostRuntime) -> anyhow::Result<()> {
    let arcs = [arc(1, 1, 2), arc(2, 2, 1)];
    let mut session = Session::new(complement(Cycle::new(&arcs[..]), 2)?);
    println!(rt; "the complement of arcs both ways by 1 and 2")?;
    tell(rt, "size 2", session.size(2))?;
    list(rt, &mut session)?;
    let twice = complement(complement(Cycle::new(&arcs[..]), 2)?, 2)?;
    let mut session = Session::new(twice);
    println!(rt; "and its complement")?;
    tell(rt, "size 2", session.size(2))?;
    list(rt, &mut session)?;
    Ok(())
}

pub(crate) fn nests(rt: &HostRuntime) -> anyhow::Result<()> {
    nest_of_a_nest(rt)?;
    shared_atom(rt)?;
    no_own_atom(rt)?;
    over_a_pair(rt)?;
    complements(rt)
}
