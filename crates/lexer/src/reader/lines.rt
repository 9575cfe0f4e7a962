// Going from line to line.
ghost use Rattle.std.specs.Prelude.{◌≡◌, ◌+◌, [], ◌∷◌, true, false, MatchBool};
ghost use Rattle.lexer.specs.Lines.{lines};
ghost use Rattle.lexer.specs.Scans.{whole, place, onward, line_number, current, after, SameLine};

use super::{Cursor, Reader};
use crate::scans::until;

impl<'a> Reader<'a> {
    // Stands before the first line.
    pub fn new(text: &'a [u8]) -> Reader<'a>
        ensures text { whole result ≡ text.now }
        ensures place { place result ≡ 0 }
        ensures current { current result ≡ [] }
        ensures after { after result ≡ lines text.now }
        ensures line { line_number result ≡ 0 }
    {
        Reader {
            text,
            cursor: Cursor { place: 0, line: 0 },
            end: 0,
            next: 0,
        }
    }

    // Goes to the next line, if there is one.
    pub fn next_line(&mut self) -> bool
        ensures lines { MatchBool result (after self.old ≡ current self.new ∷ after self.new) (after self.old ≡ []) }
        ensures start { result ≡ true → place self.new ≡ onward self.old }
        ensures count { result ≡ true → line_number self.new ≡ line_number self.old + 1 }
        ensures text { whole self.new ≡ whole self.old }
        ensures same { result ≡ false → SameLine self.old self.new }
        ensures stays { result ≡ false → place self.new ≡ place self.old }
    {
        let text = self.text;
        let start = self.next;
        if start >= text.len() {
            return false;
        }
        let end = until(text, start, b'\n');
        let next = if end < text.len() { end + 1 } else { end };
        self.next = next;
        self.end = end;
        self.cursor.place = start;
        self.cursor.line += 1;
        true
    }

    // The number of the line, counted from 1.
    pub fn line(&self) -> usize
        ensures { result ≡ line_number self.now }
    {
        let Cursor { line, .. } = self.cursor;
        line
    }
}
