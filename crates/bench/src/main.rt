// Problems that tell how far the search comes: without arguments small ones, with their nodes; with a case, a size and a seed that
// one, with its time.
#![tactic(auto)]

mod counting;
mod problems;
mod solving;
mod tasks;

use crate::solving::solve;
use crate::tasks::{Case, Task};
use anyhow::anyhow;
use std::env;
use std::time::Instant;

const SMALL: [(Case, u8, u64); 14] = [
    (Case::Hard, 40, 1),
    (Case::Hard, 40, 2),
    (Case::Hard, 60, 1),
    (Case::Hard, 60, 2),
    (Case::Every, 40, 1),
    (Case::Core, 40, 1),
    (Case::Core, 40, 2),
    (Case::Full, 120, 1),
    (Case::Loose, 200, 1),
    (Case::Arcs, 100, 1),
    (Case::TwinArcs, 40, 1),
    (Case::Pigeons, 4, 1),
    (Case::Pigeons, 5, 1),
    (Case::Pigeons, 6, 1),
];

fn show(rt: &HostRuntime, task: Task) -> anyhow::Result<()> {
    let problem = task.problem(rt.alloc())?;
    let clauses = problem.clauses.len();
    print!(rt; "{task}: {} atoms, {clauses} clauses: ", problem.atoms)?;
    match solve(&problem, task.case.most_answers()) {
        Ok(report) => print!(rt; "{report}")?,
        Err(refusal) => print!(rt; "refused {}", refusal.number())?,
    }
    Ok(())
}

fn show_timed(rt: &HostRuntime, task: Task) -> anyhow::Result<()> {
    let start = Instant::now(rt)?;
    show(rt, task)?;
    let taken = start.elapsed(rt)?;
    println!(rt; ", {} us", taken.as_micros())?;
    Ok(())
}

fn show_small(rt: &HostRuntime) -> anyhow::Result<()> {
    for (case, size, seed) in SMALL {
        show(rt, Task { case, size, seed })?;
        println!(rt)?;
    }
    Ok(())
}

fn run(rt: &HostRuntime) -> anyhow::Result<()> {
    let mut words = env::args(rt)?.skip(1);
    let Some(word) = words.next() else {
        return show_small(rt);
    };
    let case = word.as_str().parse::<Case>()?;
    let (Some(size), Some(seed)) = (words.next(), words.next()) else {
        return Err(anyhow!("a case is given with a size and a seed"));
    };
    let size = size.as_str().parse::<u8>()?;
    let seed = seed.as_str().parse::<u64>()?;
    show_timed(rt, Task { case, size, seed })
}

fn main(rt: HostRuntime) -> anyhow::Result<()> {
    run(&rt)
}
