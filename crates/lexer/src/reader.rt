// A reader that goes through a text, line by line and token by token.
ghost use Rattle.std.specs.Prelude.{◌≤◌, length};

mod lines;
mod tokens;

#[derive(Clone, Copy)]
struct Cursor {
    place: usize,
    line: usize,
}

// A part of the text, with its place there.
#[derive(Clone, Copy)]
pub enum Token<'a> {
    Word {
        bytes: &'a [u8],
        place: usize,
    },
    Number {
        bytes: &'a [u8],
        value: i32,
        place: usize,
    },
    LineEnd {
        place: usize,
    },
}

// The cursor stands in a line, which ends at `end`; the next line begins at `next`.
#[derive(Drop)]
pub struct Reader<'a> {
    text: &'a [u8],
    cursor: Cursor,
    end: usize,
    next: usize,
    ghost inside: { cursor.place ≤ end },
    ghost within: { end ≤ length text.now },
    ghost before: { next ≤ length text.now },
    // so that the count of lines fits
    ghost counted: { cursor.line ≤ next },
}
