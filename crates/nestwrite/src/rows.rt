// The rows of a body, put to a text line by line.
ghost use Rattle.std.specs.Prelude.{◌≡◌, List, ℤ, Some, MatchOption, map};
ghost use Rattle.clauses.specs.Books.{clauses_of};
ghost use Rattle.nestfile.specs.Bodies.{nest_rows};
ghost use Rattle.nestlines.specs.Rows.{arc_numbers, load_numbers};
ghost use Rattle.writing.specs.Texts.{joined};
ghost use Rattle.writing.specs.Buffers.{held};
ghost use Rattle.nestwrite.specs.Texts.{row_text, rows_text};

use clauses::book::ClauseBook;
use cycles::arc::Arc;
use loads::kind::{Lines, Milliamperes};
use loads::row::Row;
use nestfile::NestBody;
use writing::TextOut;

// What stands in a row of a nest file as numbers.
pub(crate) trait FileRow {
    ghost numbers: { Self → List ℤ };

    fn put_to(&self, out: &mut TextOut)
        ensures { held out.new ≡ joined (held out.old) (row_text (numbers self.now)) };
}

impl FileRow for Arc {
    ghost numbers = { arc_numbers };

    fn put_to(&self, out: &mut TextOut) {
        out.put_row(&[self.atom, self.from, self.to]);
    }
}

impl FileRow for Row<Milliamperes> {
    ghost numbers = { load_numbers };

    fn put_to(&self, out: &mut TextOut) {
        out.put_row(&[u32::from(self.atom), self.load]);
    }
}

impl FileRow for Row<Lines> {
    ghost numbers = { load_numbers };

    fn put_to(&self, out: &mut TextOut) {
        out.put_row(&[u16::from(self.atom), self.load]);
    }
}

pub(crate) fn put_rows<R: FileRow>(out: &mut TextOut, rows: &[R])
    ensures { held out.new ≡ joined (held out.old) (rows_text (map R.numbers rows.now)) }
{
    for row in rows {
        row.put_to(out);
    }
}

pub(crate) fn put_clauses(out: &mut TextOut, book: &ClauseBook)
    ensures { held out.new ≡ joined (held out.old) (rows_text (clauses_of book.now)) }
{
    for clause in book.clauses() {
        out.put_row(clause);
    }
}

// The map comes first. Nothing is put where no nest is there.
pub(crate) fn put_nest(out: &mut TextOut, nest: Option<&NestBody>)
    ensures { MatchOption nest.entry (held out.new ≡ held out.old) (λ b. held out.new ≡ joined (held out.old) (rows_text (nest_rows (Some b.now)))) }
{
    if let Some(body) = nest {
        out.put_row(body.map.as_slice());
        put_clauses(out, &body.book);
    }
}
