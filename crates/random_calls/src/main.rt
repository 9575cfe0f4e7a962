// Random lists of calls on sessions over each kind of veto, nests too: every answer, and every byte of every buffer, is compared with
// a plain model that tries all assignments. A list ends at its first mismatch, and the program then ends with an error.
#![tactic(auto)]

mod calls;
mod drawing;
mod model;
mod nests;
mod plans;
mod playing;
mod rules;
mod tally;

use crate::calls::{Calls, Mix};
use crate::drawing::{Kind, rules};
use crate::nests::{NEST_KINDS, NestKind, nest};
use crate::plans::Both;
use crate::playing::Trial;
use crate::rules::{Plain, Rules};
use crate::tally::Tally;
use anyhow::anyhow;
use cycles::cycle::Cycle;
use loads::load::Load;
use random::Random;
use std::alloc::AllocError;
use vetoes::mute::Mute;
use vetoes::pair::Pair;
use vetoes::veto::Veto;

const KINDS: [Kind; 5] = [
    Kind::Mute,
    Kind::Cycle,
    Kind::Current,
    Kind::Lines,
    Kind::CycleAndCurrent,
];

// For each kind of veto.
const LISTS: u64 = 1600;

// For each kind with a nest.
const NEST_LISTS: u64 = 400;

// Beyond the seeds of the lists without a nest.
const NEST_SEEDS: u64 = 1000000;

// Answers which call, counted from 0, was answered wrong; the list ends there.
fn play_list<V: Veto + Drop, P: Plain>(
    veto: V,
    rules: &P,
    calls: &mut Calls,
    tally: &mut Tally,
) -> Result<Option<u32>, AllocError> {
    let mut trial = Trial::new(calls.heap, veto, rules);
    let mut call = calls.first(rules.reach());
    for index in 0..calls.mix.length() {
        let outcome = trial.play(&mut call)?;
        tally.add(&call, outcome);
        if !outcome.right {
            return Ok(Some(index));
        }
        call = calls.next(trial.atoms())?;
    }
    Ok(None)
}

fn play_over(
    kind: Kind,
    rules: &Rules,
    calls: &mut Calls,
    tally: &mut Tally,
) -> Result<Option<u32>, AllocError> {
    let cycle = Cycle::new(rules.arcs.as_slice());
    let current = Load::new(rules.currents.as_slice());
    match kind {
        Kind::Mute => play_list(Mute, rules, calls, tally),
        Kind::Cycle => play_list(cycle, rules, calls, tally),
        Kind::Current => play_list(current, rules, calls, tally),
        Kind::Lines => play_list(Load::new(rules.lines.as_slice()), rules, calls, tally),
        Kind::CycleAndCurrent => play_list(Pair::new(cycle, current), rules, calls, tally),
    }
}

// Answers whether no list had a mismatch.
fn play_kind(rt: &HostRuntime, kind: Kind) -> anyhow::Result<bool> {
    let heap = rt.alloc();
    let mut tally = Tally::new();
    for list in 0..LISTS {
        let seed = list.wrapping_mul(8).wrapping_add(kind as u64);
        let mut random = Random::new(seed.wrapping_add(1));
        let rules = rules(heap, &mut random, kind)?;
        let mut calls = Calls::new(heap, random, Mix::of_list(list));
        if let Some(index) = play_over(kind, &rules, &mut calls, &mut tally)? {
            println!(rt; "{kind}: list {list}, call {index} differs")?;
        }
    }
    println!(rt; "{kind}: {LISTS} lists, {tally}")?;
    Ok(tally.mismatches() == 0)
}

// Over a random nest over the veto. A nest that refuses its plan is a mismatch before the first call.
fn play_nest<V: Veto + Drop, P: Plain>(
    veto: V,
    below: &P,
    calls: &mut Calls,
    tally: &mut Tally,
) -> Result<Option<u32>, AllocError> {
    let Some((nest, plain)) = nest(calls.heap, &mut calls.random, veto, below)? else {
        tally.add_mismatch();
        return Ok(Some(0));
    };
    play_list(nest, &plain, calls, tally)
}

// Over a random nest over a random nest over the veto.
fn play_two<V: Veto + Drop, P: Plain>(
    veto: V,
    below: &P,
    calls: &mut Calls,
    tally: &mut Tally,
) -> Result<Option<u32>, AllocError> {
    let Some((nest, plain)) = nest(calls.heap, &mut calls.random, veto, below)? else {
        tally.add_mismatch();
        return Ok(Some(0));
    };
    play_nest(nest, &plain, calls, tally)
}

// Over a random nest over the veto, and a load of lines beside it.
fn play_beside<V: Veto + Drop, P: Plain>(
    veto: V,
    below: &P,
    calls: &mut Calls,
    tally: &mut Tally,
) -> Result<Option<u32>, AllocError> {
    let lines = rules(calls.heap, &mut calls.random, Kind::Lines)?;
    let Some((nest, plain)) = nest(calls.heap, &mut calls.random, veto, below)? else {
        tally.add_mismatch();
        return Ok(Some(0));
    };
    let both = Both {
        left: &lines,
        right: &plain,
    };
    let load = Load::new(lines.lines.as_slice());
    play_list(Pair::new(load, nest), &both, calls, tally)
}

fn play_over_nests(
    kind: NestKind,
    calls: &mut Calls,
    tally: &mut Tally,
) -> Result<Option<u32>, AllocError> {
    let bottom = match kind {
        NestKind::OverMute => Kind::Mute,
        NestKind::OverCurrent => Kind::Current,
        NestKind::OverCycle | NestKind::OverNest | NestKind::BesideLines => Kind::Cycle,
    };
    let rules = rules(calls.heap, &mut calls.random, bottom)?;
    let cycle = Cycle::new(rules.arcs.as_slice());
    let current = Load::new(rules.currents.as_slice());
    match kind {
        NestKind::OverMute => play_nest(Mute, &rules, calls, tally),
        NestKind::OverCycle => play_nest(cycle, &rules, calls, tally),
        NestKind::OverCurrent => play_nest(current, &rules, calls, tally),
        NestKind::OverNest => play_two(cycle, &rules, calls, tally),
        NestKind::BesideLines => play_beside(cycle, &rules, calls, tally),
    }
}

// The same for lists over nests.
fn play_nest_kind(rt: &HostRuntime, kind: NestKind) -> anyhow::Result<bool> {
    let heap = rt.alloc();
    let mut tally = Tally::new();
    for list in 0..NEST_LISTS {
        let seed = list.wrapping_mul(8).wrapping_add(kind as u64);
        let random = Random::new(seed.wrapping_add(NEST_SEEDS));
        let mut calls = Calls::new(heap, random, Mix::of_list(list));
        if let Some(index) = play_over_nests(kind, &mut calls, &mut tally)? {
            println!(rt; "{kind}: list {list}, call {index} differs")?;
        }
    }
    println!(rt; "{kind}: {NEST_LISTS} lists, {tally}")?;
    Ok(tally.mismatches() == 0)
}

fn play_all(rt: &HostRuntime) -> anyhow::Result<()> {
    let mut right = true;
    for kind in KINDS {
        right &= play_kind(rt, kind)?;
    }
    for kind in NEST_KINDS {
        right &= play_nest_kind(rt, kind)?;
    }
    if !right {
        return Err(anyhow!("a session and the model differ"));
    }
    Ok(())
}

fn main(rt: HostRuntime) -> anyhow::Result<()> {
    play_all(&rt)
}
