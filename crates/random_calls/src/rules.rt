// What each kind of veto rules out, by its definition alone.
use assignments::AtomNumber;
use cycles::arc::Arc;
use loads::kind::{Lines, Milliamperes};
use loads::row::Row;
use std::alloc::{AllocError, Global};

const ATOMS: u8 = 200;

const SIGNALS: u8 = 64;

// What something rules out, at any assignment, and the highest atom that this depends on.
pub trait Plain {
    fn reach(&self) -> u8;

    fn rule_out(&self, heap: Global, assignment: &[u8]) -> Result<bool, AllocError>;
}

// A kind of veto that has no part here has no rows: then it rules nothing out.
#[derive(Drop)]
pub struct Rules {
    pub arcs: Vec<Arc>,
    pub currents: Vec<Row<Milliamperes>>,
    pub lines: Vec<Row<Lines>>,
}

// Whether the number is one of 1, 2 and so on up to the limit.
fn in_range(number: u8, limit: u8) -> bool {
    (1..=limit).contains(&number)
}

fn is_true(assignment: &[u8], atom: AtomNumber) -> bool {
    match usize::from(atom).checked_sub(1) {
        Some(place) => assignment.get(place).copied() == Some(1),
        None => false,
    }
}

fn counts(arc: &Arc) -> bool {
    in_range(arc.atom, ATOMS) && in_range(arc.from, SIGNALS) && in_range(arc.to, SIGNALS)
}

// The arcs that are there at the assignment.
fn arcs_at(heap: Global, arcs: &[Arc], assignment: &[u8]) -> Result<Vec<Arc>, AllocError> {
    let there = |arc: &Arc| counts(arc) && is_true(assignment, arc.atom);
    arcs.iter().copied().filter(there).collect(heap)
}

fn leads_on(arcs: &[Arc], signal: u8) -> bool {
    arcs.iter().any(|arc| arc.from == signal)
}

// The arcs after which another one of them can follow.
fn followed(heap: Global, arcs: &[Arc]) -> Result<Vec<Arc>, AllocError> {
    let is_followed = |arc: &Arc| leads_on(arcs, arc.to);
    arcs.iter().copied().filter(is_followed).collect(heap)
}

// An arc that none follows is on no closed chain. Once such arcs are taken away, as often as there are arcs, what is left can be
// followed for ever, so it closes a chain.
fn close_a_chain(heap: Global, arcs: Vec<Arc>) -> Result<bool, AllocError> {
    let mut left = arcs;
    for _ in 0..left.len() {
        left = followed(heap, left.as_slice())?;
    }
    Ok(!left.is_empty())
}

// Milliamperes add up and stop at the largest number that a row can have.
fn are_too_much(rows: &[Row<Milliamperes>], assignment: &[u8]) -> bool {
    let [limit, later @ ..] = rows else {
        return false;
    };
    let there = later.iter().filter(|row| is_true(assignment, row.atom));
    let loads = there.map(|row| u64::from(row.load));
    let sum = loads.fold(0, |sum: u64, load| sum.saturating_add(load));
    sum.min(u64::from(u32::MAX)) > u64::from(limit.load)
}

fn has_line(load: Lines, line: u32) -> bool {
    load.checked_shr(line).unwrap_or(0) % 2 == 1
}

fn use_line(rows: &[Row<Lines>], assignment: &[u8], line: u32) -> bool {
    let mut there = rows.iter().filter(|row| is_true(assignment, row.atom));
    there.any(|row| has_line(row.load, line))
}

// More different lines than the limit has.
fn are_too_many(rows: &[Row<Lines>], assignment: &[u8]) -> bool {
    let [limit, later @ ..] = rows else {
        return false;
    };
    let used = (0..16).filter(|line| use_line(later, assignment, *line));
    let allowed = (0..16).filter(|line| has_line(limit.load, *line));
    used.count() > allowed.count()
}

fn arcs_reach(arcs: &[Arc]) -> u8 {
    let mut reach = 0;
    for arc in arcs {
        if counts(arc) {
            reach = arc.atom.max(reach);
        }
    }
    reach
}

// The first row of a load is its limit, and its atom does not count.
fn rows_reach<L>(rows: &[Row<L>]) -> u8 {
    let mut reach = 0;
    for row in rows.iter().skip(1) {
        if in_range(row.atom, ATOMS) {
            reach = row.atom.max(reach);
        }
    }
    reach
}

impl Rules {
    pub fn none(heap: Global) -> Rules {
        Rules {
            arcs: Vec::new(heap),
            currents: Vec::new(heap),
            lines: Vec::new(heap),
        }
    }
}

impl Plain for Rules {
    fn rule_out(&self, heap: Global, assignment: &[u8]) -> Result<bool, AllocError> {
        if are_too_much(self.currents.as_slice(), assignment)
            || are_too_many(self.lines.as_slice(), assignment)
        {
            return Ok(true);
        }
        close_a_chain(heap, arcs_at(heap, self.arcs.as_slice(), assignment)?)
    }

    // The highest atom that counts.
    fn reach(&self) -> u8 {
        let arcs = arcs_reach(self.arcs.as_slice());
        let currents = rows_reach(self.currents.as_slice());
        arcs.max(currents).max(rows_reach(self.lines.as_slice()))
    }
}
