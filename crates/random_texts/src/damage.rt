// Texts with a damage.
use crate::drawing::place;
use random::Random;
use std::alloc::{AllocError, Global};
use std::fmt;

#[derive(Clone, Copy)]
pub enum Damage {
    ByteChanged,
    ByteDropped,
    ByteDoubled,
    LineDropped,
    LineDoubled,
    TokenChanged,
    CutShort,
}

pub const DAMAGES: [Damage; 7] = [
    Damage::ByteChanged,
    Damage::ByteDropped,
    Damage::ByteDoubled,
    Damage::LineDropped,
    Damage::LineDoubled,
    Damage::TokenChanged,
    Damage::CutShort,
];

impl fmt::Display for Damage {
    fn fmt<W: fmt::Write>(&self, f: &mut fmt::Formatter<W>) -> fmt::Result {
        let name = match self {
            Damage::ByteChanged => "byte changed",
            Damage::ByteDropped => "byte dropped",
            Damage::ByteDoubled => "byte doubled",
            Damage::LineDropped => "line dropped",
            Damage::LineDoubled => "line doubled",
            Damage::TokenChanged => "token changed",
            Damage::CutShort => "cut short",
        };
        write!(f, "{name}")
    }
}

// What stands in place of a token: numbers at the edges of what is allowed, and words.
const TOKENS: &[&str] = &[
    "0",
    "1",
    "2",
    "3",
    "-1",
    "-2",
    "-0",
    "00",
    "01",
    "4",
    "6",
    "7",
    "16",
    "17",
    "64",
    "65",
    "200",
    "201",
    "-201",
    "255",
    "256",
    "257",
    "300",
    "400",
    "401",
    "500",
    "501",
    "9999",
    "10000",
    "60000",
    "60001",
    "65535",
    "65536",
    "65537",
    "1000000",
    "1000001",
    "-1000000",
    "-1000001",
    "4294967297",
    "p",
    "t",
    "b",
    "c",
    "o",
    "n",
    "m",
    "l",
    "d",
    "w",
    "x",
    "nest",
    "1x",
    "-",
    "0 0",
    "1 0",
    "",
];

// Bytes that a byte is changed to, besides any other.
const BYTES: &[u8] = b"0123456789-- \n\npptbcc xonmldw\t\r";

// A part of a text, from a place to before another.
#[derive(Clone, Copy)]
struct Part {
    start: usize,
    end: usize,
}

fn byte(random: &mut Random) -> u8 {
    if random.one_in(4) {
        return random.below(255);
    }
    let place = place(random, BYTES.len());
    BYTES.get(place).copied().unwrap_or(b' ')
}

fn token(random: &mut Random) -> &'static str {
    let place = place(random, TOKENS.len());
    TOKENS.get(place).copied().unwrap_or("")
}

// The token around the place.
fn token_around(text: &[u8], place: usize) -> Part {
    let is_gap = |byte: &u8| *byte == b' ' || *byte == b'\n';
    let (front, back) = text.split_at_checked(place).unwrap_or((text, &[]));
    let start = match front.iter().rposition(|byte| is_gap(byte)) {
        Some(gap) => gap.saturating_add(1),
        None => 0,
    };
    let length = back.iter().position(|byte| is_gap(byte));
    let end = front.len().saturating_add(length.unwrap_or(back.len()));
    Part { start, end }
}

// The line around the place, with its line end.
fn line_around(text: &[u8], place: usize) -> Part {
    let (front, back) = text.split_at_checked(place).unwrap_or((text, &[]));
    let start = match front.iter().rposition(|byte| *byte == b'\n') {
        Some(line_end) => line_end.saturating_add(1),
        None => 0,
    };
    let length = match back.iter().position(|byte| *byte == b'\n') {
        Some(line_end) => line_end.saturating_add(1),
        None => back.len(),
    };
    let end = front.len().saturating_add(length);
    Part { start, end }
}

// The text with other bytes in place of the part.
fn replaced(heap: Global, text: &[u8], part: Part, bytes: &[u8]) -> Result<Vec<u8>, AllocError> {
    let mut changed = Vec::new(heap);
    changed.extend_from_slice(text.get(..part.start).unwrap_or(text))?;
    changed.extend_from_slice(bytes)?;
    changed.extend_from_slice(text.get(part.end..).unwrap_or(&[]))?;
    Ok(changed)
}

// The text with the part twice.
fn doubled(heap: Global, text: &[u8], part: Part) -> Result<Vec<u8>, AllocError> {
    let after = Part {
        start: part.end,
        end: part.end,
    };
    replaced(
        heap,
        text,
        after,
        text.get(part.start..part.end).unwrap_or(&[]),
    )
}

impl Damage {
    // The text, damaged at a random place.
    pub fn done_to(
        self,
        heap: Global,
        text: &[u8],
        random: &mut Random,
    ) -> Result<Vec<u8>, AllocError> {
        let start = place(random, text.len());
        let one = Part {
            start,
            end: start.saturating_add(1),
        };
        match self {
            Damage::ByteChanged => replaced(heap, text, one, &[byte(random)]),
            Damage::ByteDropped => replaced(heap, text, one, &[]),
            Damage::ByteDoubled => doubled(heap, text, one),
            Damage::LineDropped => replaced(heap, text, line_around(text, start), &[]),
            Damage::LineDoubled => doubled(heap, text, line_around(text, start)),
            Damage::TokenChanged => {
                let part = token_around(text, start);
                replaced(heap, text, part, token(random).as_bytes())
            }
            Damage::CutShort => Vec::from_slice(heap, text.get(..start).unwrap_or(text)),
        }
    }
}
