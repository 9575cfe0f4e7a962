// Nests by their definition: every completion is tried, and what is below is asked at each.
use assignments::{AtomNumber, Literal};
use vetoes::veto::{Verdict, Veto};

// No nest here has more atoms.
pub(crate) const MOST: usize = 12;

pub(crate) trait Plain {
    fn reach(&self) -> usize;

    fn speaks(&mut self, assignment: &[u8]) -> bool;
}

// At the bottom stands a veto itself: what these mean is compared with their definitions by lists of calls.
#[derive(Drop)]
pub(crate) struct Asked<V> {
    veto: V,
}

impl<V> Asked<V> {
    pub(crate) fn new(veto: V) -> Asked<V> {
        Asked { veto }
    }
}

impl<V: Veto> Plain for Asked<V> {
    fn reach(&self) -> usize {
        self.veto.reach()
    }

    fn speaks(&mut self, assignment: &[u8]) -> bool {
        let mut ticks = [0; MOST];
        self.veto.examine(assignment, &mut ticks) == Ok(Verdict::Speaks)
    }
}

// The value of an atom: 0, 1, or 2 where it is unknown.
fn value(assignment: &[u8], atom: AtomNumber) -> u8 {
    match usize::from(atom).checked_sub(1) {
        Some(place) => assignment.get(place).copied().unwrap_or(2).min(2),
        None => 2,
    }
}

fn says(assignment: &[u8], literal: Literal) -> bool {
    let atom = AtomNumber::try_from(literal.unsigned_abs()).unwrap_or(0);
    value(assignment, atom) == u8::from(literal > 0)
}

fn meets(assignment: &[u8], clause: &[Literal]) -> bool {
    clause.iter().any(|literal| says(assignment, *literal))
}

// A nest with its map and its clauses, over what is below.
#[derive(Drop)]
pub(crate) struct PlainNest<P> {
    pub below: P,
    pub map: Vec<AtomNumber>,
    pub own: u8,
    pub clauses: Vec<Vec<Literal>>,
    // an unshaped nest says nothing
    pub shaped: bool,
}

// The digits of the number in base two, the first one for the first of the bytes.
fn write_completion(bytes: &mut [u8], number: u32) {
    let mut rest = number;
    for byte in bytes.iter_mut() {
        *byte = u8::from(rest % 2 == 1);
        rest /= 2;
    }
}

impl<P: Plain> PlainNest<P> {
    // The values that the nest sees, and unknown own atoms.
    fn seen(&self, assignment: &[u8]) -> [u8; MOST] {
        let mut seen = [2; MOST];
        for (byte, atom) in seen.iter_mut().zip(self.map.iter()) {
            *byte = value(assignment, *atom);
        }
        seen
    }

    fn knows_enough(&self, seen: &[u8; MOST]) -> bool {
        let needed = self.map.len().min(self.below.reach());
        seen.iter().take(needed).all(|byte| *byte < 2)
    }

    fn meets_all(&self, joined: &[u8]) -> bool {
        self.clauses.iter().all(|clause| meets(joined, clause))
    }
}

impl<P: Plain> Plain for PlainNest<P> {
    fn reach(&self) -> usize {
        self.map
            .iter()
            .fold(0, |top, atom| top.max(usize::from(*atom)))
    }

    fn speaks(&mut self, assignment: &[u8]) -> bool {
        let mut joined = self.seen(assignment);
        if !self.shaped || !self.knows_enough(&joined) {
            return false;
        }
        let first = self.map.len().min(MOST);
        let atoms = first.saturating_add(usize::from(self.own)).min(MOST);
        for number in 0..1u32.checked_shl(u32::from(self.own)).unwrap_or(0) {
            write_completion(&mut joined[first..atoms], number);
            if self.meets_all(&joined[..atoms]) && !self.below.speaks(&joined[..atoms]) {
                return true;
            }
        }
        false
    }
}
