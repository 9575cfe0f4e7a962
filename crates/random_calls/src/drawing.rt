// Random arcs and rows for each kind of veto.
use crate::rules::Rules;
use cycles::arc::Arc;
use loads::kind::{Lines, Milliamperes};
use loads::row::Row;
use random::Random;
use std::alloc::{AllocError, Global};
use std::fmt;

#[derive(Clone, Copy)]
pub enum Kind {
    Mute,
    Cycle,
    Current,
    Lines,
    CycleAndCurrent,
}

impl fmt::Display for Kind {
    fn fmt<W: fmt::Write>(&self, f: &mut fmt::Formatter<W>) -> fmt::Result {
        let name = match self {
            Kind::Mute => "mute",
            Kind::Cycle => "cycle",
            Kind::Current => "load of milliamperes",
            Kind::Lines => "load of lines",
            Kind::CycleAndCurrent => "pair of cycle and load",
        };
        write!(f, "{name}")
    }
}

// Mostly one of the first atoms; at times one that does not count.
fn atom(random: &mut Random, top: u8) -> u8 {
    match random.below(24) {
        0 => 0,
        1 => 201,
        2 => 255,
        _ => random.below(top).saturating_add(1),
    }
}

fn signal(random: &mut Random) -> u8 {
    match random.below(24) {
        0 => 0,
        1 => 65,
        2 => 64,
        _ => random.below(4).saturating_add(1),
    }
}

fn arc(random: &mut Random, top: u8) -> Arc {
    Arc {
        atom: atom(random, top),
        from: signal(random),
        to: signal(random),
    }
}

fn current(random: &mut Random, top: u8) -> Row<Milliamperes> {
    Row {
        atom: atom(random, top),
        load: match random.below(16) {
            0 => 0,
            1 => 4294967295,
            2 => 4294967294,
            _ => u32::from(random.below(20)),
        },
    }
}

fn lines(random: &mut Random, top: u8) -> Row<Lines> {
    Row {
        atom: atom(random, top),
        load: match random.below(6) {
            0 => 1,
            1 => 2,
            2 => 256,
            3 => 32768,
            4 => 32770,
            _ => u16::from(random.below(8)),
        },
    }
}

fn add_arcs(random: &mut Random, top: u8, rules: &mut Rules) -> Result<(), AllocError> {
    for _ in 0..random.below(9) {
        rules.arcs.push(arc(random, top))?;
    }
    Ok(())
}

fn add_currents(random: &mut Random, top: u8, rules: &mut Rules) -> Result<(), AllocError> {
    for _ in 0..random.below(8) {
        rules.currents.push(current(random, top))?;
    }
    Ok(())
}

fn add_lines(random: &mut Random, top: u8, rules: &mut Rules) -> Result<(), AllocError> {
    for _ in 0..random.below(8) {
        rules.lines.push(lines(random, top))?;
    }
    Ok(())
}

// The atoms lie at most at a random top, so that the reach differs from list to list.
fn add(random: &mut Random, kind: Kind, rules: &mut Rules) -> Result<(), AllocError> {
    let top = random.below(6).saturating_add(1);
    match kind {
        Kind::Mute => Ok(()),
        Kind::Cycle => add_arcs(random, top, rules),
        Kind::Current => add_currents(random, top, rules),
        Kind::Lines => add_lines(random, top, rules),
        Kind::CycleAndCurrent => {
            add_arcs(random, top, rules)?;
            add_currents(random, top, rules)
        }
    }
}

pub fn rules(heap: Global, random: &mut Random, kind: Kind) -> Result<Rules, AllocError> {
    let mut rules = Rules::none(heap);
    add(random, kind, &mut rules)?;
    Ok(rules)
}
