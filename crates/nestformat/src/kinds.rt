// The kinds of bodies with their letters, and what a heading and a contents line say.
ghost use Rattle.std.specs.Prelude.{◌≡◌};
ghost use Rattle.nestformat.specs.Kinds.{letter_of, kind_of_letter, kind_named};

#[derive(Clone, Copy, PartialEq, Eq, Debug)]
pub enum BodyKind {
    // The clauses over the atoms of the problem.
    Outer,
    // A nest, and the nest below it.
    Nest,
    Below,
    // Arcs between signals.
    Loop,
    // Loads.
    Milliamperes,
    Lines,
}

impl BodyKind {
    pub fn letter(self) -> char
        ensures { result ≡ letter_of self }
    {
        match self {
            BodyKind::Outer => 'o',
            BodyKind::Nest => 'n',
            BodyKind::Below => 'm',
            BodyKind::Loop => 'l',
            BodyKind::Milliamperes => 'd',
            BodyKind::Lines => 'w',
        }
    }

    pub fn from_letter(letter: u8) -> Option<BodyKind>
        ensures { result ≡ kind_of_letter letter }
    {
        match letter {
            b'o' => Some(BodyKind::Outer),
            b'n' => Some(BodyKind::Nest),
            b'm' => Some(BodyKind::Below),
            b'l' => Some(BodyKind::Loop),
            b'd' => Some(BodyKind::Milliamperes),
            b'w' => Some(BodyKind::Lines),
            _ => None,
        }
    }

    // The kind that a token names: one letter.
    pub fn named(token: &[u8]) -> Option<BodyKind>
        ensures { result ≡ kind_named token.now }
    {
        match token {
            [letter] => BodyKind::from_letter(*letter),
            _ => None,
        }
    }
}

// The needle map and the number of bodies.
#[derive(Clone, Copy, PartialEq, Eq, Debug)]
pub struct Heading {
    pub map: u16,
    pub bodies: usize,
}

// A kind, its two numbers (atoms, signals or a limit, and own atoms) and the number of its rows.
#[derive(Clone, Copy, PartialEq, Eq, Debug)]
pub struct Contents {
    pub kind: BodyKind,
    pub size: u32,
    pub own: u32,
    pub rows: usize,
}
