// Random calls, with their arguments and with what their buffers hold before.
use assignments::Literal;
use random::Random;
use runs::turn::Call;
use std::alloc::{AllocError, Global};

// Which calls a list has most of.
#[derive(Clone, Copy)]
pub enum Mix {
    Even,
    Listing,
    Opening,
    // so many clauses that the table of clauses, or that of literals, gets full
    ShortClauses,
    LongClauses,
}

// The calls without their arguments.
#[derive(Clone, Copy)]
pub enum Name {
    Size,
    Clause,
    Open,
    Close,
    Rewind,
    Next,
    Ask,
}

// In the order of the calls.
pub const NAMES: [&str; 7] = ["size", "clause", "open", "close", "rewind", "next", "ask"];

impl Name {
    pub fn of(call: &Call) -> Name {
        match call {
            Call::Size(_) => Name::Size,
            Call::Clause(_) => Name::Clause,
            Call::Open => Name::Open,
            Call::Close => Name::Close,
            Call::Rewind => Name::Rewind,
            Call::Next(_) => Name::Next,
            Call::Ask(_, _, _) => Name::Ask,
        }
    }
}

impl Mix {
    pub fn of_list(list: u64) -> Mix {
        match list % 16 {
            0 => Mix::ShortClauses,
            1 => Mix::LongClauses,
            2..=4 => Mix::Opening,
            5..=7 => Mix::Listing,
            _ => Mix::Even,
        }
    }

    // How many calls a list has.
    pub fn length(self) -> u32 {
        match self {
            Mix::ShortClauses => 520,
            Mix::LongClauses => 160,
            _ => 120,
        }
    }

    fn draw(self, random: &mut Random) -> Name {
        match self {
            Mix::Even => match random.below(16) {
                0 => Name::Size,
                1..=4 => Name::Clause,
                5 => Name::Open,
                6 => Name::Close,
                7 => Name::Rewind,
                8..=11 => Name::Next,
                _ => Name::Ask,
            },
            Mix::Listing => match random.below(16) {
                0 => Name::Clause,
                1 => Name::Rewind,
                2 => Name::Ask,
                _ => Name::Next,
            },
            Mix::Opening => match random.below(8) {
                0 => Name::Clause,
                1..=4 => Name::Open,
                5 => Name::Close,
                6 => Name::Next,
                _ => Name::Ask,
            },
            Mix::ShortClauses | Mix::LongClauses => match random.below(16) {
                0..=13 => Name::Clause,
                14 => Name::Next,
                _ => Name::Ask,
            },
        }
    }
}

// What a buffer may hold before a call: often a byte that could be an answer.
fn byte(random: &mut Random) -> u8 {
    if random.one_in(2) {
        return random.below(3);
    }
    random.below(255)
}

// The calls of one list.
#[derive(Drop)]
pub struct Calls {
    pub heap: Global,
    pub random: Random,
    pub mix: Mix,
    // so many atoms the session has now
    atoms: u8,
}

impl Calls {
    pub fn new(heap: Global, random: Random, mix: Mix) -> Calls {
        Calls {
            heap,
            random,
            mix,
            atoms: 0,
        }
    }

    // Most lists begin with a size that is accepted, the others with a call that is refused.
    pub fn first(&mut self, reach: u8) -> Call {
        if matches!(self.mix, Mix::Even) && self.random.one_in(4) {
            return Call::Rewind;
        }
        Call::Size(usize::from(reach.max(self.random.below(7))))
    }

    // A call for a session that has so many atoms.
    pub fn next(&mut self, atoms: u8) -> Result<Call, AllocError> {
        self.atoms = atoms;
        let call = match self.mix.draw(&mut self.random) {
            Name::Size => Call::Size(self.atoms_to_set()),
            Name::Clause => Call::Clause(self.clause()?),
            Name::Open => Call::Open,
            Name::Close => Call::Close,
            Name::Rewind => Call::Rewind,
            Name::Next => Call::Next(self.buffer(atoms)?),
            Name::Ask => self.question()?,
        };
        Ok(call)
    }

    fn atoms_to_set(&mut self) -> usize {
        match self.random.below(16) {
            0 => 201,
            1 => usize::from(self.random.below(255)).saturating_add(201),
            2 => usize::MAX,
            _ => usize::from(self.random.below(7)),
        }
    }

    // A literal over the atoms, or, with no atom, 0.
    fn literal(&mut self) -> Literal {
        let place = i16::from(self.random.below(self.atoms));
        let atom = place.saturating_add(i16::from(self.atoms > 0));
        if self.random.one_in(2) {
            atom.wrapping_neg()
        } else {
            atom
        }
    }

    fn out_of_range(&mut self) -> Literal {
        match self.random.below(6) {
            0 => 0,
            1 => i16::from(self.atoms).saturating_add(1),
            2 => i16::from(self.atoms).saturating_add(1).wrapping_neg(),
            3 => -201,
            4 => i16::MAX,
            _ => i16::MIN,
        }
    }

    fn literals(&mut self, count: u8) -> Result<Vec<Literal>, AllocError> {
        let mut literals = Vec::new(self.heap);
        if self.random.one_in(16) {
            literals.push(self.out_of_range())?;
        }
        if self.atoms > 0 {
            for _ in 0..count {
                literals.push(self.literal())?;
            }
        }
        Ok(literals)
    }

    // A clause with both signs of one atom and some literals more, which rules nothing out.
    fn tautology(&mut self, most: u8) -> Result<Vec<Literal>, AllocError> {
        let count = self.random.below(most);
        let mut clause = self.literals(count)?;
        if self.atoms > 0 {
            let first = self.literal();
            clause.push(first)?;
            clause.push(first.wrapping_neg())?;
        }
        Ok(clause)
    }

    fn clause(&mut self) -> Result<Vec<Literal>, AllocError> {
        match self.mix {
            Mix::ShortClauses => self.tautology(4),
            Mix::LongClauses => self.tautology(40),
            _ => {
                let count = match self.random.below(32) {
                    0 => 0,
                    1..=4 => 1,
                    _ => self.random.below(3).saturating_add(2),
                };
                self.literals(count)
            }
        }
    }

    // A buffer that is mostly long enough for so many bytes.
    fn buffer(&mut self, needed: u8) -> Result<Vec<u8>, AllocError> {
        let count = match self.random.below(12) {
            0 => self.random.below(needed),
            1 => needed.saturating_sub(1),
            2 => needed.saturating_add(1),
            3 => needed.saturating_add(self.random.below(5)),
            _ => needed,
        };
        let mut buffer = Vec::new(self.heap);
        for _ in 0..count {
            buffer.push(byte(&mut self.random))?;
        }
        Ok(buffer)
    }

    fn question(&mut self) -> Result<Call, AllocError> {
        let count = self.random.below(6);
        let assumed = self.literals(count)?;
        let needed = u8::try_from(assumed.len()).unwrap_or(255);
        let out = self.buffer(self.atoms)?;
        Ok(Call::Ask(assumed, out, self.buffer(needed)?))
    }
}
