// A task: a kind of problem, its size, and the seed that it is drawn from.
use crate::problems::{Problem, all_true, arc_pairs, pigeons, three_clauses};
use random::Random;
use std::alloc::{AllocError, Global};
use std::error::Error;
use std::fmt;
use std::str::FromStr;

const SIGNALS: u8 = 60;

#[derive(Clone, Copy)]
pub(crate) enum Case {
    // the hard ratio, 4.26 clauses of three literals for each atom
    Hard,
    // the same, and all answers
    Every,
    // the same, asked with every atom assumed true
    Core,
    // as many clauses of three literals as a book holds
    Full,
    // one clause of three literals for each atom, and the first hundred answers
    Loose,
    // so many pairs of atoms, with one arc or two for each atom
    Arcs,
    TwinArcs,
    // one pigeon more than there are holes
    Pigeons,
}

// A word that names no case.
#[derive(Debug, Drop)]
pub(crate) struct UnknownCase;

impl fmt::Display for UnknownCase {
    fn fmt<W: fmt::Write>(&self, f: &mut fmt::Formatter<W>) -> fmt::Result {
        write!(
            f,
            "a case is hard, every, core, full, loose, arcs, twin-arcs or pigeons"
        )
    }
}

impl Error for UnknownCase {}

impl fmt::Display for Case {
    fn fmt<W: fmt::Write>(&self, f: &mut fmt::Formatter<W>) -> fmt::Result {
        match self {
            Case::Hard => write!(f, "hard"),
            Case::Every => write!(f, "every"),
            Case::Core => write!(f, "core"),
            Case::Full => write!(f, "full"),
            Case::Loose => write!(f, "loose"),
            Case::Arcs => write!(f, "arcs"),
            Case::TwinArcs => write!(f, "twin-arcs"),
            Case::Pigeons => write!(f, "pigeons"),
        }
    }
}

impl FromStr for Case {
    type Err = UnknownCase;

    fn from_str(s: &str) -> Result<Case, UnknownCase> {
        match s {
            "hard" => Ok(Case::Hard),
            "every" => Ok(Case::Every),
            "core" => Ok(Case::Core),
            "full" => Ok(Case::Full),
            "loose" => Ok(Case::Loose),
            "arcs" => Ok(Case::Arcs),
            "twin-arcs" => Ok(Case::TwinArcs),
            "pigeons" => Ok(Case::Pigeons),
            _ => Err(UnknownCase),
        }
    }
}

impl Case {
    pub(crate) fn most_answers(self) -> u32 {
        match self {
            Case::Every => 1000000,
            Case::Loose => 100,
            _ => 1,
        }
    }
}

fn hard_count(atoms: u32) -> u32 {
    atoms.saturating_mul(426) / 100
}

#[derive(Clone, Copy)]
pub(crate) struct Task {
    pub case: Case,
    pub size: u8,
    pub seed: u64,
}

impl fmt::Display for Task {
    fn fmt<W: fmt::Write>(&self, f: &mut fmt::Formatter<W>) -> fmt::Result {
        write!(f, "{} {} seed {}", self.case, self.size, self.seed)
    }
}

impl Task {
    pub(crate) fn problem(self, heap: Global) -> Result<Problem, AllocError> {
        let mut random = Random::new(self.seed);
        let size = self.size;
        let atoms = u32::from(size);
        match self.case {
            Case::Hard | Case::Every => {
                three_clauses(heap, &mut random, size, hard_count(atoms))
            }
            Case::Core => {
                let mut problem = three_clauses(heap, &mut random, size, hard_count(atoms))?;
                problem.assumed = all_true(heap, size)?;
                Ok(problem)
            }
            Case::Full => three_clauses(heap, &mut random, size, 400),
            Case::Loose => three_clauses(heap, &mut random, size, atoms),
            Case::Arcs => arc_pairs(heap, &mut random, size, SIGNALS, 1),
            Case::TwinArcs => arc_pairs(heap, &mut random, size, SIGNALS, 2),
            Case::Pigeons => pigeons(heap, size),
        }
    }
}
