// How many texts were read, by what was answered.
use crate::trial::Outcome;
use refusals::Fault;
use std::fmt;

// The refusals of texts without a cause, and then the causes.
const NAMES: [&str; 12] = [
    "refused 10",
    "refused 11",
    "refused 12",
    "refused 13",
    "refused 14",
    "refused 15",
    "refused 16",
    "refused 17",
    "by cause 3",
    "by cause 5",
    "by cause 6",
    "by cause 7",
];

// The place of the fault among the names; past them where it has none.
fn place(fault: Fault) -> usize {
    let Some(cause) = fault.cause else {
        return usize::from(fault.refusal.number().saturating_sub(10));
    };
    match cause.number() {
        3 => 8,
        5 => 9,
        6 => 10,
        7 => 11,
        _ => NAMES.len(),
    }
}

#[derive(Drop)]
pub struct Tally {
    accepted: u32,
    faults: [u32; NAMES.len()],
    mismatches: u32,
}

impl Tally {
    pub fn new() -> Tally {
        Tally {
            accepted: 0,
            faults: [0; NAMES.len()],
            mismatches: 0,
        }
    }

    fn add_fault(&mut self, fault: Fault) {
        if let Some(number) = self.faults.get_mut(place(fault)) {
            *number = number.saturating_add(1);
        }
    }

    pub fn add(&mut self, outcome: Outcome) {
        match outcome.answer {
            Ok(()) => self.accepted = self.accepted.saturating_add(1),
            Err(fault) => self.add_fault(fault),
        }
        if !outcome.right {
            self.mismatches = self.mismatches.saturating_add(1);
        }
    }

    pub fn mismatches(&self) -> u32 {
        self.mismatches
    }
}

impl fmt::Display for Tally {
    fn fmt<W: fmt::Write>(&self, f: &mut fmt::Formatter<W>) -> fmt::Result {
        let accepted = self.accepted;
        write!(f, "accepted {accepted}")?;
        for (name, count) in NAMES.iter().zip(self.faults.iter()) {
            write!(f, ", {name}: {count}")?;
        }
        let mismatches = self.mismatches;
        write!(f, "; mismatches {mismatches}")
    }
}
