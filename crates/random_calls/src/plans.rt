// What a nest rules out, by its definition alone: every completion of its own atoms is tried.
use crate::model::{all_assignments, says_one};
use crate::rules::Plain;
use assignments::{AtomNumber, Literal};
use std::alloc::{AllocError, Global};

// The host atom of each seen atom, the number of own atoms, and the clauses over both.
#[derive(Drop)]
pub struct Plan {
    pub map: Vec<AtomNumber>,
    pub own: u8,
    pub clauses: Vec<Vec<Literal>>,
}

// The value of the atom, or 2 where it is unknown.
fn value(assignment: &[u8], atom: AtomNumber) -> u8 {
    match usize::from(atom).checked_sub(1) {
        Some(place) => assignment.get(place).copied().unwrap_or(2),
        None => 2,
    }
}

fn joined(heap: Global, seen: &[u8], own: &[u8]) -> Result<Vec<u8>, AllocError> {
    let mut bytes = Vec::from_slice(heap, seen)?;
    for byte in own {
        bytes.push(*byte)?;
    }
    Ok(bytes)
}

impl Plan {
    fn seen(&self, heap: Global, assignment: &[u8]) -> Result<Vec<u8>, AllocError> {
        let atoms = self.map.iter();
        atoms.map(|atom| value(assignment, *atom)).collect(heap)
    }

    fn meets(&self, bytes: &[u8]) -> bool {
        let mut clauses = self.clauses.iter();
        clauses.all(|clause| says_one(bytes, clause.as_slice()))
    }
}

// A nest over what is below it. With no plan it rules nothing out.
#[derive(Drop)]
pub struct PlainNest<'a, P> {
    pub below: &'a P,
    pub plan: Option<Plan>,
}

// The plan stalls at the assignment: what it sees up to the reach below is known, and some completion meets its clauses where
// nothing below rules it out.
fn stalls<P: Plain>(
    heap: Global,
    plan: &Plan,
    below: &P,
    assignment: &[u8],
) -> Result<bool, AllocError> {
    let seen = plan.seen(heap, assignment)?;
    let needed = usize::from(below.reach());
    if seen.iter().take(needed).any(|byte| *byte > 1) {
        return Ok(false);
    }
    for own in all_assignments(heap, usize::from(plan.own))? {
        let bytes = joined(heap, seen.as_slice(), own.as_slice())?;
        if plan.meets(bytes.as_slice()) && !below.rule_out(heap, bytes.as_slice())? {
            return Ok(true);
        }
    }
    Ok(false)
}

impl<'a, P: Plain> Plain for PlainNest<'a, P> {
    fn reach(&self) -> u8 {
        match &self.plan {
            Some(plan) => plan.map.iter().copied().max().unwrap_or(0),
            None => 0,
        }
    }

    fn rule_out(&self, heap: Global, assignment: &[u8]) -> Result<bool, AllocError> {
        match &self.plan {
            Some(plan) => stalls(heap, plan, self.below, assignment),
            None => Ok(false),
        }
    }
}

// What either of both rules out.
#[derive(Drop)]
pub struct Both<'a, 'b, P, Q> {
    pub left: &'a P,
    pub right: &'b Q,
}

impl<'a, 'b, P: Plain, Q: Plain> Plain for Both<'a, 'b, P, Q> {
    fn reach(&self) -> u8 {
        self.left.reach().max(self.right.reach())
    }

    fn rule_out(&self, heap: Global, assignment: &[u8]) -> Result<bool, AllocError> {
        Ok(self.left.rule_out(heap, assignment)? || self.right.rule_out(heap, assignment)?)
    }
}
