// Going from token to token of a line.
ghost use Rattle.std.specs.Prelude.{◌≡◌, ◌+◌, length, drop};
ghost use Rattle.lexer.specs.Lines.{lead};
ghost use Rattle.lexer.specs.Scans.{spaces, place, current, left, SameLine, seen, first, place_of, bytes_of};

use super::{Cursor, Reader, Token};
use crate::numbers::number;
use crate::scans::{skip_spaces, until};

// Puts the place and the line of a cursor back when it goes.
struct Ahead<'a> {
    cursor: &'a mut Cursor,
    place: usize,
    line: usize,
}

impl Drop for Ahead<'_> {
    fn drop(self)
        ensures line { self.exit.0.now.line ≡ self.entry.line }
        ensures place { self.exit.0.now.place ≡ self.entry.place }
    {
        self.cursor.line = self.line;
        self.cursor.place = self.place;
        let Ahead {
            cursor: _,
            place: _,
            line: _,
        } = self;
    }
}

impl<'a> Reader<'a> {
    // The first byte of the rest of the line that is no space, with the reader as it was.
    pub fn peek(&mut self) -> Option<u8>
        ensures value { result ≡ lead (left self.old) }
        ensures same { SameLine self.old self.new }
        ensures stays { place self.new ≡ place self.old }
    {
        let text = self.text;
        let line = &text[0..self.end];
        let place = self.cursor.place;
        let count = self.cursor.line;
        let guard = Ahead {
            cursor: &mut self.cursor,
            place,
            line: count,
        };
        guard.cursor.place = skip_spaces(line, place);
        let at = guard.cursor.place;
        if at >= line.len() {
            return None;
        }
        Some(line[at])
    }

    // The next token of the line, past the spaces before it. At the line's end it is the end itself.
    pub fn next_token(&mut self) -> Token<'a>
        ensures token { seen result ≡ first (left self.old) }
        ensures stands { place_of result ≡ place self.old + spaces (current self.old) }
        ensures rest { left self.new ≡ drop 1 (left self.old) }
        ensures past { place self.new ≡ place_of result + length (bytes_of result) }
        ensures same { SameLine self.old self.new }
    {
        let text = self.text;
        let line = &text[0..self.end];
        let start = skip_spaces(line, self.cursor.place);
        let end = until(line, start, b' ');
        self.cursor.place = end;
        if start == end {
            return Token::LineEnd { place: start };
        }
        let bytes = &line[start..end];
        let place = start;
        match number(bytes) {
            Some(value) => Token::Number {
                bytes,
                value,
                place,
            },
            None => Token::Word { bytes, place },
        }
    }

    // The rest of the line.
    pub fn rest(&self) -> &'a [u8]
        ensures { result.now ≡ current self.now }
    {
        let text = self.text;
        &text[self.cursor.place..self.end]
    }
}
