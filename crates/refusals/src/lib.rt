// Why a call or a text is refused: the refusals in their order, each with its number and its text.
#![tactic(auto)]

ghost use Rattle.std.specs.Prelude.{◌≡◌, Some};
ghost use Rattle.std.specs.IoError.{error_kind};
ghost use Rattle.std.specs.declared.io.ErrorKind.TheVariants.{Other};
ghost use Rattle.refusals.specs.Refusals.{number_of, text_of, outside};

use std::error::Error;
use std::{fmt, io};

// In the order of the list, counted from 1: where several apply, the earliest is the answer.
#[derive(Clone, Copy, PartialEq, Eq, Debug)]
pub enum Refusal {
    NotSized = 1,
    BufferShort,
    CountOutOfRange,
    ReachOutOfRange,
    LiteralOutOfRange,
    ClauseTableFull,
    LiteralTableFull,
    ScopeTableFull,
    NoScope,
    TextTooLong,
    BadByte,
    BadNumber,
    BadHeading,
    BadContents,
    BadBody,
    RowRefused,
    BadEnd,
}

impl Refusal {
    pub fn number(self) -> u8
        ensures { result ≡ number_of self }
    {
        self as u8
    }

    pub fn text(self) -> &'static str
        ensures { result.now ≡ text_of self }
    {
        match self {
            Refusal::NotSized => "not sized",
            Refusal::BufferShort => "buffer short",
            Refusal::CountOutOfRange => "count out of range",
            Refusal::ReachOutOfRange => "reach out of range",
            Refusal::LiteralOutOfRange => "literal out of range",
            Refusal::ClauseTableFull => "clause table full",
            Refusal::LiteralTableFull => "literal table full",
            Refusal::ScopeTableFull => "scope table full",
            Refusal::NoScope => "no scope",
            Refusal::TextTooLong => "text too long",
            Refusal::BadByte => "bad byte",
            Refusal::BadNumber => "bad number",
            Refusal::BadHeading => "bad heading",
            Refusal::BadContents => "bad contents",
            Refusal::BadBody => "bad body",
            Refusal::RowRefused => "row refused",
            Refusal::BadEnd => "bad end",
        }
    }
}

impl fmt::Display for Refusal {
    ghost output = { λ refusal. Some (text_of refusal) };

    fn fmt<W: fmt::Write>(&self, f: &mut fmt::Formatter<W>) -> fmt::Result {
        f.write_str(self.text())
    }
}

impl Error for Refusal {}

// So that a program whose errors are those of its output passes a refusal on by `?`.
impl From<Refusal> for io::Error {
    ghost from_gives = { λ _ error. error_kind error ≡ Other };

    fn from(refusal: Refusal) -> io::Error {
        io::Error::other(refusal.text())
    }
}

// A refusal with what is known of its place: the refusal below that caused it, the line of the text and the letter of the body.
#[derive(Clone, Copy, PartialEq, Eq, Debug)]
pub struct Fault {
    pub refusal: Refusal,
    pub cause: Option<Refusal>,
    pub line: usize,
    pub body: char,
}

impl Fault {
    // Outside a text there is no cause, line or body.
    pub fn outside_text(refusal: Refusal) -> Fault
        ensures { result ≡ outside refusal }
    {
        Fault {
            refusal,
            cause: None,
            line: 0,
            body: '-',
        }
    }
}
