// Random problems with all kinds of bodies.
use crate::model::{Body, Contents, Kind, Model};
use random::Random;
use std::alloc::{AllocError, Global};

// What a problem has many of. With many clauses or long ones a table may get too full.
#[derive(Clone, Copy)]
pub enum Mix {
    Few,
    Kinds,
    ShortClauses,
    LongClauses,
}

impl Mix {
    pub fn of_text(text: u64) -> Mix {
        match text % 32 {
            0 => Mix::ShortClauses,
            1 => Mix::LongClauses,
            2..=9 => Mix::Few,
            _ => Mix::Kinds,
        }
    }
}

// The kinds besides the outer body, the nest before the one below it.
const KINDS: [Kind; 5] = [
    Kind::Nest,
    Kind::Below,
    Kind::Loop,
    Kind::Milliamperes,
    Kind::Lines,
];

// A place below so many, or 0 where there is none.
pub fn place(random: &mut Random, count: usize) -> usize {
    let high = usize::from(random.below(250)).saturating_mul(250);
    let number = high.saturating_add(usize::from(random.below(250)));
    number.checked_rem(count).unwrap_or(0)
}

fn below(random: &mut Random, bound: u8) -> i32 {
    i32::from(random.below(bound))
}

// A number from 1 to the limit, often the limit itself; 0 where that is 0.
fn up_to(random: &mut Random, limit: i32) -> i32 {
    if random.one_in(8) {
        return limit;
    }
    let count = usize::try_from(limit).unwrap_or(0);
    let number = i32::try_from(place(random, count)).unwrap_or(0);
    number.saturating_add(1).min(limit)
}

// What a body is drawn for: its contents, and so many atoms that a map, arcs or loads may name.
#[derive(Clone, Copy)]
struct Frame {
    contents: Contents,
    named: i32,
    mix: Mix,
}

#[derive(Drop)]
pub struct Drawing {
    heap: Global,
    pub random: Random,
}

impl Drawing {
    pub fn new(heap: Global, seed: u64) -> Drawing {
        Drawing {
            heap,
            random: Random::new(seed),
        }
    }

    // Random kinds in a random order.
    fn kinds(&mut self, mix: Mix) -> Result<Vec<Kind>, AllocError> {
        let mut kinds = Vec::new(self.heap);
        kinds.push(Kind::Outer)?;
        for kind in KINDS {
            if self.random.one_in(match mix {
                Mix::Kinds => 1,
                _ => 3,
            }) {
                self.put(&mut kinds, kind)?;
            }
        }
        Ok(kinds)
    }

    // Puts the kind behind the outer body or at the end; the nest below only where the nest is.
    fn put(&mut self, kinds: &mut Vec<Kind>, kind: Kind) -> Result<(), AllocError> {
        if kind == Kind::Below && !kinds.contains(&Kind::Nest) {
            return Ok(());
        }
        let count = kinds.len();
        if kind != Kind::Below && count > 1 && self.random.one_in(2) {
            kinds.insert(1, kind)?;
        } else {
            kinds.push(kind)?;
        }
        Ok(())
    }

    fn atoms(&mut self) -> i32 {
        match self.random.below(12) {
            0 => 0,
            1 => 200,
            2 => up_to(&mut self.random, 200),
            _ => below(&mut self.random, 9).saturating_add(1),
        }
    }

    fn row_count(&mut self, kind: Kind, mix: Mix) -> i32 {
        match (kind, mix) {
            (Kind::Outer | Kind::Nest | Kind::Below, Mix::ShortClauses) => {
                below(&mut self.random, 9).saturating_add(394)
            }
            (Kind::Outer | Kind::Nest | Kind::Below, Mix::LongClauses) => {
                below(&mut self.random, 9).saturating_add(46)
            }
            (_, Mix::ShortClauses | Mix::Kinds) => below(&mut self.random, 6),
            _ => below(&mut self.random, 3),
        }
    }

    // The atoms of the nest below are limited by nothing but the atom limit, so they are as those of any other body.
    fn contents(&mut self, kind: Kind, mix: Mix, named: i32) -> Contents {
        let random = &mut self.random;
        let (size, own) = match kind {
            Kind::Outer => (self.atoms(), 0),
            Kind::Nest | Kind::Below => {
                let seen = match named {
                    0 => 0,
                    _ => below(random, 12),
                };
                (seen, below(random, 9))
            }
            Kind::Loop => (up_to(random, 64), 0),
            Kind::Milliamperes => (up_to(random, 1000), 0),
            Kind::Lines => (below(random, 17), 0),
        };
        let least = i32::from(kind.has_map());
        let rows = match (kind, named) {
            (Kind::Loop | Kind::Milliamperes | Kind::Lines, 0) => 0,
            _ => self.row_count(kind, mix).max(least),
        };
        Contents {
            kind,
            size,
            own,
            rows,
        }
    }

    fn literal(&mut self, atoms: i32) -> i32 {
        let atom = up_to(&mut self.random, atoms);
        if self.random.one_in(2) {
            atom.saturating_neg()
        } else {
            atom
        }
    }

    fn clause(&mut self, atoms: i32, mix: Mix) -> Result<Vec<i32>, AllocError> {
        let count = match (atoms, mix) {
            (0, _) => 0,
            (_, Mix::ShortClauses) => self.random.below(4),
            (_, Mix::LongClauses) => self.random.below(9).saturating_add(38),
            _ => self.random.below(5),
        };
        let mut clause = Vec::new(self.heap);
        for _ in 0..count {
            clause.push(self.literal(atoms))?;
        }
        Ok(clause)
    }

    fn map(&mut self, frame: Frame) -> Result<Vec<i32>, AllocError> {
        let mut map = Vec::new(self.heap);
        for _ in 0..frame.contents.size {
            map.push(up_to(&mut self.random, frame.named))?;
        }
        Ok(map)
    }

    fn row(&mut self, frame: Frame, is_first: bool) -> Result<Vec<i32>, AllocError> {
        let random = &mut self.random;
        match frame.contents.kind {
            Kind::Nest | Kind::Below if is_first => self.map(frame),
            Kind::Outer | Kind::Nest | Kind::Below => {
                self.clause(frame.contents.atoms(), frame.mix)
            }
            Kind::Loop => {
                let signals = frame.contents.size;
                let arc = [
                    up_to(random, frame.named),
                    up_to(random, signals),
                    up_to(random, signals),
                ];
                Vec::from_slice(self.heap, &arc)
            }
            Kind::Milliamperes => {
                let load = [up_to(random, frame.named), up_to(random, 60_000)];
                Vec::from_slice(self.heap, &load)
            }
            Kind::Lines => {
                let load = [up_to(random, frame.named), up_to(random, 65_535)];
                Vec::from_slice(self.heap, &load)
            }
        }
    }

    fn rows(&mut self, frame: Frame) -> Result<Vec<Vec<i32>>, AllocError> {
        let mut rows = Vec::new(self.heap);
        for index in 0..frame.contents.rows {
            rows.push(self.row(frame, index == 0)?)?;
        }
        Ok(rows)
    }

    // A problem that is right but for tables that may be too full.
    pub fn problem(&mut self, mix: Mix) -> Result<Model, AllocError> {
        let mut model = Model {
            map: up_to(&mut self.random, 9_999),
            bodies: Vec::new(self.heap),
        };
        for kind in self.kinds(mix)? {
            let named = match kind {
                Kind::Below => model.atoms_of(Kind::Nest),
                _ => model.atoms_of(Kind::Outer),
            };
            let contents = self.contents(kind, mix, named);
            let frame = Frame {
                contents,
                named,
                mix,
            };
            let rows = self.rows(frame)?;
            model.bodies.push(Body { contents, rows })?;
        }
        Ok(model)
    }
}
