// A plain problem: bodies with rows of numbers, and how it is written.
use std::fmt;

#[derive(Clone, Copy, PartialEq, Eq)]
pub enum Kind {
    Outer,
    Nest,
    Below,
    Loop,
    Milliamperes,
    Lines,
}

impl Kind {
    pub fn letter(self) -> char {
        match self {
            Kind::Outer => 'o',
            Kind::Nest => 'n',
            Kind::Below => 'm',
            Kind::Loop => 'l',
            Kind::Milliamperes => 'd',
            Kind::Lines => 'w',
        }
    }

    pub fn of_token(token: &[u8]) -> Option<Kind> {
        match token {
            b"o" => Some(Kind::Outer),
            b"n" => Some(Kind::Nest),
            b"m" => Some(Kind::Below),
            b"l" => Some(Kind::Loop),
            b"d" => Some(Kind::Milliamperes),
            b"w" => Some(Kind::Lines),
            _ => None,
        }
    }

    pub fn has_map(self) -> bool {
        matches!(self, Kind::Nest | Kind::Below)
    }
}

#[derive(Clone, Copy)]
pub struct Contents {
    pub kind: Kind,
    pub size: i32,
    pub own: i32,
    pub rows: i32,
}

impl Contents {
    // The atoms that clauses of the body may name; none where it has no clauses.
    pub fn atoms(&self) -> i32 {
        match self.kind {
            Kind::Outer => self.size,
            Kind::Nest | Kind::Below => self.size.saturating_add(self.own),
            Kind::Loop | Kind::Milliamperes | Kind::Lines => 0,
        }
    }
}

#[derive(Drop)]
pub struct Body {
    pub contents: Contents,
    pub rows: Vec<Vec<i32>>,
}

#[derive(Drop)]
pub struct Model {
    pub map: i32,
    pub bodies: Vec<Body>,
}

impl Model {
    // The atoms of the body of this kind, none where there is no such body.
    pub fn atoms_of(&self, kind: Kind) -> i32 {
        let mut bodies = self.bodies.iter();
        match bodies.find(|body| body.contents.kind == kind) {
            Some(body) => body.contents.atoms(),
            None => 0,
        }
    }
}

fn write_row<W: fmt::Write>(f: &mut fmt::Formatter<W>, row: &[i32]) -> fmt::Result {
    for number in row {
        write!(f, "{number} ")?;
    }
    writeln!(f, "0")
}

fn write_body<W: fmt::Write>(f: &mut fmt::Formatter<W>, body: &Body, map: i32) -> fmt::Result {
    let letter = body.contents.kind.letter();
    writeln!(f, "b {letter} {map}")?;
    for row in body.rows.iter() {
        write_row(f, row.as_slice())?;
    }
    Ok(())
}

impl fmt::Display for Contents {
    fn fmt<W: fmt::Write>(&self, f: &mut fmt::Formatter<W>) -> fmt::Result {
        let letter = self.kind.letter();
        let Contents {
            kind: _,
            size,
            own,
            rows,
        } = *self;
        write!(f, "t {letter} {size} {own} {rows}")
    }
}

impl fmt::Display for Model {
    fn fmt<W: fmt::Write>(&self, f: &mut fmt::Formatter<W>) -> fmt::Result {
        let map = self.map;
        let bodies = self.bodies.len();
        writeln!(f, "p nest {map} {bodies}")?;
        for body in self.bodies.iter() {
            let contents = body.contents;
            writeln!(f, "{contents}")?;
        }
        for body in self.bodies.iter() {
            write_body(f, body, map)?;
        }
        Ok(())
    }
}
