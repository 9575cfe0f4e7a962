// A plain reader of nest files, by the rules of the format alone.
use crate::model::{Body, Contents, Kind, Model};
use crate::numbers::{are_numbers, number, numbers};
use crate::rows::refuse_row;
use refusals::{Fault, Refusal};
use std::alloc::{AllocError, Global};

const BYTES: usize = 60_000;

const MAPS: i32 = 9_999;

const BODIES: i32 = 6;

const ATOMS: i32 = 200;

// Why a line is not taken: a refusal with the one below that causes it, or the memory of the model.
#[derive(Clone, Copy)]
pub enum Wrong {
    Refused(Refusal, Option<Refusal>),
    OutOfMemory,
}

impl Wrong {
    pub fn plain(refusal: Refusal) -> Wrong {
        Wrong::Refused(refusal, None)
    }
}

impl From<AllocError> for Wrong {
    fn from(_error: AllocError) -> Wrong {
        Wrong::OutOfMemory
    }
}

// What the next line has to be.
#[derive(Clone, Copy)]
enum Due {
    Heading,
    Contents,
    Body(Contents),
    Row(Contents),
    End,
}

#[derive(Drop)]
struct Reader {
    heap: Global,
    model: Model,
    // how many bodies the heading tells, none before it
    told: Option<i32>,
    begun: usize,
    letter: char,
}

fn is_allowed(byte: u8) -> bool {
    matches!(byte, b'a'..=b'z' | b'0'..=b'9' | b'-' | b' ')
}

fn tokens(heap: Global, line: &[u8]) -> Result<Vec<&[u8]>, AllocError> {
    let pieces = line.split(|byte| *byte == b' ');
    pieces.filter(|piece| !piece.is_empty()).collect(heap)
}

// The first character that is no space.
fn lead(tokens: &[&[u8]]) -> Option<u8> {
    tokens.first()?.first().copied()
}

// The numbers of a contents line that its kind may have.
fn are_in_range(contents: &Contents) -> bool {
    let Contents {
        kind,
        size,
        own,
        rows,
    } = *contents;
    let (sizes, owns, counts) = match kind {
        Kind::Outer => (0..=ATOMS, 0..=0, 0..=500),
        Kind::Nest | Kind::Below => (0..=ATOMS, 0..=ATOMS, 1..=500),
        Kind::Loop => (1..=64, 0..=0, 0..=400),
        Kind::Milliamperes => (0..=1_000_000, 0..=0, 0..=400),
        Kind::Lines => (0..=16, 0..=0, 0..=400),
    };
    sizes.contains(&size) && owns.contains(&own) && counts.contains(&rows)
}

impl Reader {
    fn has_kind(&self, kind: Kind) -> bool {
        let mut bodies = self.model.bodies.iter();
        bodies.any(|body| body.contents.kind == kind)
    }

    // The outer body is first, the nest below comes after the nest, and no kind stands twice.
    fn is_in_order(&self, kind: Kind) -> bool {
        match kind {
            Kind::Outer => self.model.bodies.is_empty(),
            Kind::Below => self.has_kind(Kind::Nest) && !self.has_kind(Kind::Below),
            _ => self.has_kind(Kind::Outer) && !self.has_kind(kind),
        }
    }

    // The body that was begun last.
    fn current(&self) -> Option<&Body> {
        self.model.bodies.get(self.begun.checked_sub(1)?)
    }

    fn due(&self) -> Due {
        let Some(told) = self.told else {
            return Due::Heading;
        };
        if self.model.bodies.len() < usize::try_from(told).unwrap_or(0) {
            return Due::Contents;
        }
        if let Some(body) = self.current() {
            if body.rows.len() < usize::try_from(body.contents.rows).unwrap_or(0) {
                return Due::Row(body.contents);
            }
        }
        match self.model.bodies.get(self.begun) {
            Some(body) => Due::Body(body.contents),
            None => Due::End,
        }
    }

    fn take_heading(&mut self, tokens: &[&[u8]]) -> Result<(), Wrong> {
        if lead(tokens) != Some(b'p') {
            return Err(Wrong::plain(Refusal::BadHeading));
        }
        if !are_numbers(tokens, 2, 2) {
            return Err(Wrong::plain(Refusal::BadNumber));
        }
        let [b"p", b"nest", map, bodies] = tokens else {
            return Err(Wrong::plain(Refusal::BadHeading));
        };
        let map = number(map).unwrap_or(0);
        let bodies = number(bodies).unwrap_or(0);
        if !(1..=MAPS).contains(&map) || !(1..=BODIES).contains(&bodies) {
            return Err(Wrong::plain(Refusal::BadHeading));
        }
        self.model.map = map;
        self.told = Some(bodies);
        Ok(())
    }

    fn take_contents(&mut self, tokens: &[&[u8]]) -> Result<(), Wrong> {
        let wrong = Wrong::plain(Refusal::BadContents);
        if lead(tokens) != Some(b't') {
            return Err(wrong);
        }
        if !are_numbers(tokens, 2, 3) {
            return Err(Wrong::plain(Refusal::BadNumber));
        }
        let [b"t", kind, size, own, rows] = tokens else {
            return Err(wrong);
        };
        let Some(kind) = Kind::of_token(kind) else {
            return Err(wrong);
        };
        let contents = Contents {
            kind,
            size: number(size).unwrap_or(0),
            own: number(own).unwrap_or(0),
            rows: number(rows).unwrap_or(0),
        };
        if contents.atoms() > ATOMS {
            let cause = Refusal::CountOutOfRange;
            return Err(Wrong::Refused(Refusal::BadContents, Some(cause)));
        }
        if !are_in_range(&contents) || !self.is_in_order(kind) {
            return Err(wrong);
        }
        let rows = Vec::new(self.heap);
        self.model
            .bodies
            .push(Body { contents, rows })
            .map_err(AllocError::from)?;
        Ok(())
    }

    fn take_body(&mut self, contents: Contents, tokens: &[&[u8]]) -> Result<(), Wrong> {
        if lead(tokens) != Some(b'b') {
            return Err(Wrong::plain(Refusal::BadBody));
        }
        if !are_numbers(tokens, 2, 1) {
            return Err(Wrong::plain(Refusal::BadNumber));
        }
        let [b"b", kind, map] = tokens else {
            return Err(Wrong::plain(Refusal::BadBody));
        };
        if Kind::of_token(kind) != Some(contents.kind) || number(map) != Some(self.model.map) {
            return Err(Wrong::plain(Refusal::BadBody));
        }
        self.begun = self.begun.saturating_add(1);
        self.letter = contents.kind.letter();
        Ok(())
    }

    fn take_row(&mut self, contents: Contents, tokens: &[&[u8]]) -> Result<(), Wrong> {
        if !matches!(lead(tokens), Some(b'0'..=b'9' | b'-')) {
            return Err(Wrong::plain(Refusal::BadBody));
        }
        if !are_numbers(tokens, 0, tokens.len()) {
            return Err(Wrong::plain(Refusal::BadNumber));
        }
        let numbers = numbers(self.heap, tokens)?;
        let [row @ .., 0] = numbers.as_slice() else {
            return Err(Wrong::plain(Refusal::RowRefused));
        };
        if row.contains(&0) {
            return Err(Wrong::plain(Refusal::RowRefused));
        }
        if let Some(body) = self.current() {
            refuse_row(&self.model, contents, body.rows.as_slice(), row)?;
        }
        let row = Vec::from_slice(self.heap, row)?;
        let place = self.begun.saturating_sub(1);
        if let Some(body) = self.model.bodies.get_mut(place) {
            body.rows.push(row).map_err(AllocError::from)?;
        }
        Ok(())
    }

    fn take(&mut self, line: &[u8]) -> Result<(), Wrong> {
        let tokens = tokens(self.heap, line)?;
        let tokens = tokens.as_slice();
        if matches!(lead(tokens), None | Some(b'c')) {
            return Ok(());
        }
        if !line.iter().all(|byte| is_allowed(*byte)) {
            return Err(Wrong::plain(Refusal::BadByte));
        }
        match self.due() {
            Due::Heading => self.take_heading(tokens),
            Due::Contents => self.take_contents(tokens),
            Due::Body(contents) => self.take_body(contents, tokens),
            Due::Row(contents) => self.take_row(contents, tokens),
            Due::End => Err(Wrong::plain(Refusal::BadEnd)),
        }
    }

    fn fault(&self, refusal: Refusal, cause: Option<Refusal>, line: usize) -> Fault {
        Fault {
            refusal,
            cause,
            line,
            body: self.letter,
        }
    }
}

// A line end at the very end begins no line more.
fn lines(heap: Global, text: &[u8]) -> Result<Vec<&[u8]>, AllocError> {
    if text.is_empty() {
        return Ok(Vec::new(heap));
    }
    let text = text.strip_suffix(b"\n").unwrap_or(text);
    text.split(|byte| *byte == b'\n').collect(heap)
}

// Only the memory of the model can fail.
pub fn read(heap: Global, text: &[u8]) -> Result<Result<Model, Fault>, AllocError> {
    if text.len() > BYTES {
        return Ok(Err(Fault::outside_text(Refusal::TextTooLong)));
    }
    let mut reader = Reader {
        heap,
        model: Model {
            map: 0,
            bodies: Vec::new(heap),
        },
        told: None,
        begun: 0,
        letter: '-',
    };
    let mut count: usize = 1;
    for line in lines(heap, text)? {
        match reader.take(line) {
            Ok(()) => {}
            Err(Wrong::Refused(refusal, cause)) => {
                return Ok(Err(reader.fault(refusal, cause, count)));
            }
            Err(Wrong::OutOfMemory) => return Err(AllocError),
        }
        count = count.saturating_add(1);
    }
    match reader.due() {
        Due::End => Ok(Ok(reader.model)),
        _ => Ok(Err(reader.fault(Refusal::BadEnd, None, count))),
    }
}
