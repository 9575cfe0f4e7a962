// Random nests, one or two deep, over each kind of veto: verdict, reason, ticks and reach are compared with the definition of a nest,
// which tries every completion. The program ends with an error where one differs.
#![tactic(auto)]

mod drawing;
mod plain;
mod tally;
mod trying;

use crate::drawing::Lists;
use crate::plain::{Asked, Plain};
use crate::tally::Tally;
use crate::trying::{ask, nest};
use anyhow::anyhow;
use cycles::cycle::Cycle;
use loads::load::Load;
use random::Random;
use std::alloc::{AllocError, Global};
use std::fmt;
use vetoes::mute::Mute;
use vetoes::pair::Pair;
use vetoes::veto::Veto;

// The veto at the bottom.
#[derive(Clone, Copy)]
enum Kind {
    Mute,
    Cycle,
    Current,
    Lines,
    CycleAndCurrent,
}

const KINDS: [Kind; 5] = [
    Kind::Mute,
    Kind::Cycle,
    Kind::Current,
    Kind::Lines,
    Kind::CycleAndCurrent,
];

impl fmt::Display for Kind {
    fn fmt<W: fmt::Write>(&self, f: &mut fmt::Formatter<W>) -> fmt::Result {
        let name = match self {
            Kind::Mute => "mute",
            Kind::Cycle => "cycle",
            Kind::Current => "load of milliamperes",
            Kind::Lines => "load of lines",
            Kind::CycleAndCurrent => "pair of cycle and load",
        };
        write!(f, "{name}")
    }
}

// For each kind, and for each depth.
const NESTS: u64 = 1000;

// How many atoms the host has, and how many nests stand over each other.
#[derive(Clone, Copy)]
enum Depth {
    One,
    Two,
}

const HOST: u8 = 4;

// Asks a nest over both.
fn play_nest<V: Veto + Drop, P: Plain + Drop>(
    heap: Global,
    random: &mut Random,
    below: V,
    plain: P,
    tally: &mut Tally,
) -> Result<(), AllocError> {
    let Some((mut above, mut plain)) = nest(heap, random, below, plain, HOST)? else {
        tally.add_nest(false);
        return Ok(());
    };
    ask(heap, random, &mut above, &mut plain, HOST, tally)
}

// Asks a nest over a nest over both.
fn play_two<V: Veto + Drop, P: Plain + Drop>(
    heap: Global,
    random: &mut Random,
    veto: V,
    plain: P,
    tally: &mut Tally,
) -> Result<(), AllocError> {
    let host = HOST.saturating_add(1);
    let Some((below, plain)) = nest(heap, random, veto, plain, host)? else {
        tally.add_nest(false);
        return Ok(());
    };
    play_nest(heap, random, below, plain, tally)
}

// Over the veto, and over a twin of it that the definition asks.
fn play<V: Veto + Drop>(
    heap: Global,
    random: &mut Random,
    depth: Depth,
    veto: V,
    twin: V,
    tally: &mut Tally,
) -> Result<(), AllocError> {
    match depth {
        Depth::One => play_nest(heap, random, veto, Asked::new(twin), tally),
        Depth::Two => play_two(heap, random, veto, Asked::new(twin), tally),
    }
}

fn play_over(
    heap: Global,
    random: &mut Random,
    depth: Depth,
    kind: Kind,
    lists: &Lists,
    tally: &mut Tally,
) -> Result<(), AllocError> {
    let arcs = lists.arcs.as_slice();
    let rows = lists.currents.as_slice();
    let lines = lists.lines.as_slice();
    match kind {
        Kind::Mute => play(heap, random, depth, Mute, Mute, tally),
        Kind::Cycle => {
            let (veto, twin) = (Cycle::new(arcs), Cycle::new(arcs));
            play(heap, random, depth, veto, twin, tally)
        }
        Kind::Current => {
            let (veto, twin) = (Load::new(rows), Load::new(rows));
            play(heap, random, depth, veto, twin, tally)
        }
        Kind::Lines => {
            let (veto, twin) = (Load::new(lines), Load::new(lines));
            play(heap, random, depth, veto, twin, tally)
        }
        Kind::CycleAndCurrent => {
            let veto = Pair::new(Cycle::new(arcs), Load::new(rows));
            let twin = Pair::new(Cycle::new(arcs), Load::new(rows));
            play(heap, random, depth, veto, twin, tally)
        }
    }
}

fn play_numbered(
    heap: Global,
    depth: Depth,
    kind: Kind,
    number: u64,
    tally: &mut Tally,
) -> Result<(), AllocError> {
    let seed = number.wrapping_mul(8).wrapping_add(kind as u64);
    let mut random = Random::new(seed.wrapping_add(1));
    let lists = Lists::draw(heap, &mut random)?;
    play_over(heap, &mut random, depth, kind, &lists, tally)
}

// Answers whether nothing differed.
fn play_kind(rt: &HostRuntime, depth: Depth, kind: Kind) -> anyhow::Result<bool> {
    let mut tally = Tally::new();
    for number in 0..NESTS {
        play_numbered(rt.alloc(), depth, kind, number, &mut tally)?;
    }
    match depth {
        Depth::One => println!(rt; "over {kind}: {tally}")?,
        Depth::Two => println!(rt; "over a nest over {kind}: {tally}")?,
    }
    Ok(tally.mismatches() == 0)
}

fn play_all(rt: &HostRuntime) -> anyhow::Result<()> {
    let mut right = true;
    for depth in [Depth::One, Depth::Two] {
        for kind in KINDS {
            right &= play_kind(rt, depth, kind)?;
        }
    }
    if !right {
        return Err(anyhow!("a nest and its definition differ"));
    }
    Ok(())
}

fn main(rt: HostRuntime) -> anyhow::Result<()> {
    play_all(&rt)
}
