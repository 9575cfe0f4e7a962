// Random nests: each with the same nest by its definition.
use crate::plans::{PlainNest, Plan};
use crate::rules::Plain;
use assignments::{AtomNumber, Literal};
use nested::nested::Nested;
use random::Random;
use std::alloc::{AllocError, Global};
use std::fmt;
use vetoes::veto::Veto;

#[derive(Clone, Copy)]
pub enum NestKind {
    OverMute,
    OverCycle,
    OverCurrent,
    OverNest,
    BesideLines,
}

pub const NEST_KINDS: [NestKind; 5] = [
    NestKind::OverMute,
    NestKind::OverCycle,
    NestKind::OverCurrent,
    NestKind::OverNest,
    NestKind::BesideLines,
];

impl fmt::Display for NestKind {
    fn fmt<W: fmt::Write>(&self, f: &mut fmt::Formatter<W>) -> fmt::Result {
        let name = match self {
            NestKind::OverMute => "nest over mute",
            NestKind::OverCycle => "nest over cycle",
            NestKind::OverCurrent => "nest over load of milliamperes",
            NestKind::OverNest => "nest over a nest over cycle",
            NestKind::BesideLines => "pair of load of lines and nest over cycle",
        };
        write!(f, "{name}")
    }
}

fn number(random: &mut Random, most: u8) -> u8 {
    random.below(most).saturating_add(1)
}

// So many mapped atoms up to a random one, at most 5; two may be the same.
fn map(heap: Global, random: &mut Random, count: u8) -> Result<Vec<AtomNumber>, AllocError> {
    let top = number(random, 5);
    let mut map = Vec::new(heap);
    for _ in 0..count {
        map.push(number(random, top))?;
    }
    Ok(map)
}

fn literal(random: &mut Random, atoms: u8) -> Literal {
    let atom = i16::from(number(random, atoms));
    if random.one_in(2) {
        atom.wrapping_neg()
    } else {
        atom
    }
}

// At most three literals over so many atoms.
fn clause(heap: Global, random: &mut Random, atoms: u8) -> Result<Vec<Literal>, AllocError> {
    let count = if atoms == 0 || random.one_in(24) {
        0
    } else {
        number(random, 3)
    };
    let mut clause = Vec::new(heap);
    for _ in 0..count {
        clause.push(literal(random, atoms))?;
    }
    Ok(clause)
}

// A plan for a nest over what has such a reach; at times none, so that the nest stays unshaped.
fn plan(heap: Global, random: &mut Random, reach: u8) -> Result<Option<Plan>, AllocError> {
    if random.one_in(16) {
        return Ok(None);
    }
    let count = random.below(6);
    let own = random.below(3).max(reach.saturating_sub(count));
    let mut plan = Plan {
        map: map(heap, random, count)?,
        own,
        clauses: Vec::new(heap),
    };
    for _ in 0..random.below(5) {
        let drawn = clause(heap, random, count.saturating_add(own))?;
        plan.clauses.push(drawn)?;
    }
    Ok(Some(plan))
}

// Whether the nest takes the map, the own atoms and every clause of the plan.
fn takes<V: Veto>(nest: &mut Nested<V>, plan: &Plan) -> bool {
    if nest
        .shape(plan.map.as_slice(), usize::from(plan.own))
        .is_err()
    {
        return false;
    }
    for clause in plan.clauses.iter() {
        if nest.add(clause.as_slice()).is_err() {
            return false;
        }
    }
    true
}

// A random nest over the veto, and the same over what the veto means; none where the nest refuses its plan.
pub fn nest<'a, V: Veto + Drop, P: Plain>(
    heap: Global,
    random: &mut Random,
    veto: V,
    below: &'a P,
) -> Result<Option<(Nested<V>, PlainNest<'a, P>)>, AllocError> {
    let mut nest = Nested::new(veto);
    let plan = plan(heap, random, below.reach())?;
    if let Some(plan) = &plan {
        if !takes(&mut nest, plan) {
            return Ok(None);
        }
    }
    Ok(Some((nest, PlainNest { below, plan })))
}
