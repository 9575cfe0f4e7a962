// The problems: each is a number of atoms, clauses, arcs for a cycle veto, and assumptions.
use assignments::Literal;
use cycles::arc::Arc;
use random::Random;
use std::alloc::{AllocError, Global};

#[derive(Drop)]
pub(crate) struct Problem {
    pub atoms: u8,
    pub clauses: Vec<Vec<Literal>>,
    pub arcs: Vec<Arc>,
    pub assumed: Vec<Literal>,
}

impl Problem {
    // With no arc and no assumption.
    fn new(heap: Global, atoms: u8, clauses: Vec<Vec<Literal>>) -> Problem {
        Problem {
            atoms,
            clauses,
            arcs: Vec::new(heap),
            assumed: Vec::new(heap),
        }
    }
}

fn signed(random: &mut Random, atom: u8) -> Literal {
    if random.one_in(2) {
        i16::from(atom).wrapping_neg()
    } else {
        i16::from(atom)
    }
}

// Three literals of different atoms, of which there have to be three.
fn three_literals(
    heap: Global,
    random: &mut Random,
    atoms: u8,
) -> Result<Vec<Literal>, AllocError> {
    let atoms = three_of(random, atoms);
    atoms.iter().map(|atom| signed(random, *atom)).collect(heap)
}

// Three different numbers from 1 to `atoms`, as far as there are three: each is drawn from what is left, and moved past those
// that were drawn before.
fn three_of(random: &mut Random, atoms: u8) -> [u8; 3] {
    let first = random.below(atoms).saturating_add(1);
    let second = past(
        random.below(atoms.saturating_sub(1)).saturating_add(1),
        first,
    );
    let third = random.below(atoms.saturating_sub(2)).saturating_add(1);
    let low = first.min(second);
    let high = first.max(second);
    [first, second, past(past(third, low), high)]
}

fn past(number: u8, taken: u8) -> u8 {
    if number >= taken {
        number.saturating_add(1)
    } else {
        number
    }
}

// So many random clauses of three literals.
pub(crate) fn three_clauses(
    heap: Global,
    random: &mut Random,
    atoms: u8,
    count: u32,
) -> Result<Problem, AllocError> {
    let drawn = (0..count).map(|_| three_literals(heap, random, atoms));
    let clauses = drawn.try_collect(heap)?;
    Ok(Problem::new(heap, atoms, clauses))
}

// Every atom true, as assumptions.
pub(crate) fn all_true(heap: Global, atoms: u8) -> Result<Vec<Literal>, AllocError> {
    (1..=atoms).map(i16::from).collect(heap)
}

// An arc between two different signals.
fn arc(random: &mut Random, atom: u8, signals: u8) -> Arc {
    let from = random.below(signals).saturating_add(1);
    let to = past(
        random.below(signals.saturating_sub(1)).saturating_add(1),
        from,
    );
    Arc { atom, from, to }
}

// Atoms in pairs, each atom with random arcs, and for each pair a clause that wants one of the two.
pub(crate) fn arc_pairs(
    heap: Global,
    random: &mut Random,
    pairs: u8,
    signals: u8,
    arcs_each: u8,
) -> Result<Problem, AllocError> {
    let mut clauses = Vec::new(heap);
    let mut arcs = Vec::new(heap);
    for pair in 0..pairs {
        let one = pair.saturating_mul(2).saturating_add(1);
        let other = pair.saturating_mul(2).saturating_add(2);
        arcs.extend((0..arcs_each).map(|_| arc(random, one, signals)))?;
        arcs.extend((0..arcs_each).map(|_| arc(random, other, signals)))?;
        clauses.push(vec![in heap; i16::from(one), i16::from(other)]?)?;
    }
    let mut problem = Problem::new(heap, pairs.saturating_mul(2), clauses);
    problem.arcs = arcs;
    Ok(problem)
}

// The clauses that put pigeons into so many holes. Both are counted from 0.
#[derive(Drop)]
struct Holes {
    heap: Global,
    count: u8,
    clauses: Vec<Vec<Literal>>,
}

impl Holes {
    // That the pigeon is in the hole.
    fn sits(&self, pigeon: u8, hole: u8) -> Literal {
        let before = pigeon.saturating_mul(self.count).saturating_add(hole);
        i16::from(before.saturating_add(1))
    }

    // The pigeon is in some hole.
    fn place(&mut self, pigeon: u8) -> Result<(), AllocError> {
        let holes = 0..self.count;
        let clause = holes
            .map(|hole| self.sits(pigeon, hole))
            .collect(self.heap)?;
        self.clauses.push(clause)?;
        Ok(())
    }

    // No pigeon before this one sits in the hole with it.
    fn keep_alone(&mut self, pigeon: u8, hole: u8) -> Result<(), AllocError> {
        let here = self.sits(pigeon, hole).wrapping_neg();
        for other in 0..pigeon {
            let there = self.sits(other, hole).wrapping_neg();
            self.clauses.push(vec![in self.heap; there, here]?)?;
        }
        Ok(())
    }

    fn add(&mut self, pigeon: u8) -> Result<(), AllocError> {
        self.place(pigeon)?;
        for hole in 0..self.count {
            self.keep_alone(pigeon, hole)?;
        }
        Ok(())
    }
}

// Pigeons, each in some hole and no two in one, with one hole too few.
pub(crate) fn pigeons(heap: Global, count: u8) -> Result<Problem, AllocError> {
    let mut holes = Holes {
        heap,
        count,
        clauses: Vec::new(heap),
    };
    let pigeons = count.saturating_add(1);
    for pigeon in 0..pigeons {
        holes.add(pigeon)?;
    }
    let atoms = pigeons.saturating_mul(count);
    Ok(Problem::new(heap, atoms, holes.clauses))
}
