// Random lists for the vetoes at the bottom, and random maps, clauses and assignments.
use assignments::{AtomNumber, Literal};
use cycles::arc::Arc;
use loads::kind::{Lines, Milliamperes};
use loads::row::Row;
use random::Random;
use std::alloc::{AllocError, Global};

// What the vetoes at the bottom are lent. Their atoms lie up to a random one, at most 5.
#[derive(Drop)]
pub(crate) struct Lists {
    pub arcs: Vec<Arc>,
    pub currents: Vec<Row<Milliamperes>>,
    pub lines: Vec<Row<Lines>>,
}

fn number(random: &mut Random, most: u8) -> u8 {
    random.below(most).saturating_add(1)
}

fn arc(random: &mut Random, top: u8) -> Arc {
    Arc {
        atom: number(random, top),
        from: number(random, 3),
        to: number(random, 3),
    }
}

fn current(random: &mut Random, top: u8) -> Row<Milliamperes> {
    Row {
        atom: number(random, top),
        load: u32::from(random.below(20)),
    }
}

fn line(random: &mut Random, top: u8) -> Row<Lines> {
    Row {
        atom: number(random, top),
        load: u16::from(random.below(16)),
    }
}

impl Lists {
    pub(crate) fn draw(heap: Global, random: &mut Random) -> Result<Lists, AllocError> {
        let mut lists = Lists {
            arcs: Vec::new(heap),
            currents: Vec::new(heap),
            lines: Vec::new(heap),
        };
        lists.fill(random)?;
        Ok(lists)
    }

    fn fill(&mut self, random: &mut Random) -> Result<(), AllocError> {
        let top = number(random, 5);
        let arcs = random.below(8);
        let currents = random.below(7);
        let lines = random.below(7);
        for _ in 0..arcs {
            self.arcs.push(arc(random, top))?;
        }
        for _ in 0..currents {
            self.currents.push(current(random, top))?;
        }
        for _ in 0..lines {
            self.lines.push(line(random, top))?;
        }
        Ok(())
    }
}

// So many mapped atoms of a host; two may be the same.
pub(crate) fn map(
    heap: Global,
    random: &mut Random,
    count: u8,
    host: u8,
) -> Result<Vec<AtomNumber>, AllocError> {
    let mut map = Vec::new(heap);
    for _ in 0..count {
        map.push(number(random, host))?;
    }
    Ok(map)
}

fn literal(random: &mut Random, atoms: u8) -> Literal {
    let atom = i16::from(number(random, atoms));
    if random.one_in(2) {
        atom.wrapping_neg()
    } else {
        atom
    }
}

// At most three literals over so many atoms.
pub(crate) fn clause(
    heap: Global,
    random: &mut Random,
    atoms: u8,
) -> Result<Vec<Literal>, AllocError> {
    let count = if random.one_in(24) {
        0
    } else {
        number(random, 3)
    };
    let mut clause = Vec::new(heap);
    for _ in 0..count {
        clause.push(literal(random, atoms))?;
    }
    Ok(clause)
}

// A value mostly, at times unknown, by 2 or by a byte that no value has.
fn byte(random: &mut Random) -> u8 {
    match random.below(12) {
        0 => 255,
        1..=3 => 2,
        _ => random.below(2),
    }
}

pub(crate) fn bytes(heap: Global, random: &mut Random, count: u8) -> Result<Vec<u8>, AllocError> {
    let mut bytes = Vec::new(heap);
    for _ in 0..count {
        bytes.push(byte(random))?;
    }
    Ok(bytes)
}
