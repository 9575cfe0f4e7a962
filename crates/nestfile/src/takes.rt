// A draft takes one line: by its sort, by its tokens, and into the parts.
ghost use Rattle.std.specs.Prelude.{◌≡◌, ◌≤◌, true, length};
ghost use Rattle.lexer.specs.Scans.{left, line_number, SameLine};
ghost use Rattle.refusals.specs.declared.Refusal.TheVariants.{RowRefused};
ghost use Rattle.nestformat.specs.Faults.{told_at};
ghost use Rattle.nestformat.specs.Due.{heading_due, contents_due, body_due, map_due, row_due, due};
ghost use Rattle.nestformat.specs.Reading.{judge};
ghost use Rattle.nestlines.specs.Closed.{row_number_limit};
ghost use Rattle.nestlines.specs.LineItems.{item_or_fault};
ghost use Rattle.nestfile.specs.Drafts.{state_of, Sound, LineTaken};
ghost use Rattle.nestfile.specs.declared.drafts.Phase.TheVariants.{Heading, Contents, Bodies, Map, Rows};

use crate::drafts::{Draft, Phase, after_entry, after_opening, rows_left};
use lexer::reader::Reader;
use nestformat::faults::LineFault;
use nestformat::kinds;
use nestlines::due::Due;
use nestlines::entries::read_entry;
use nestlines::headings::read_heading;
use nestlines::openings::read_opening;
use nestlines::rows::read_row;
use refusals::{Fault, Refusal};

// A row that is refused below, for this cause.
fn row_fault(cause: Option<Refusal>, line: usize, body: char) -> Fault
    ensures { result ≡ told_at (record { refusal = RowRefused; cause = cause }) line body }
{
    let fault = LineFault {
        refusal: Refusal::RowRefused,
        cause,
    };
    fault.at(line, body)
}

impl Draft {
    fn take_heading(&mut self, reader: &mut Reader<'_>) -> Result<(), Fault>
        requires phase { self.old.phase ≡ Heading }
        requires sound { Sound self.old }
        ensures taken { LineTaken (item_or_fault heading_due (state_of self.old) (left reader.old)) (line_number reader.old) result self.old self.new }
        ensures same { SameLine reader.old reader.new }
    {
        let heading = read_heading(reader, self.letter())?;
        self.parts.map = heading.map;
        self.phase = Phase::Contents {
            left: heading.bodies,
        };
        Ok(())
    }

    fn take_entry(&mut self, reader: &mut Reader<'_>, count: usize) -> Result<(), Fault>
        requires phase { self.old.phase ≡ Contents count }
        requires sound { Sound self.old }
        ensures taken { LineTaken (item_or_fault contents_due (state_of self.old) (left reader.old)) (line_number reader.old) result self.old self.new }
        ensures same { SameLine reader.old reader.new }
    {
        let entry = read_entry(reader, self.letter(), self.parts.contents.as_slice())?;
        let _ = self.parts.contents.push(entry);
        self.phase = after_entry(count);
        Ok(())
    }

    fn take_opening(
        &mut self,
        reader: &mut Reader<'_>,
        entry: kinds::Contents,
        next: usize,
    ) -> Result<(), Fault>
        requires phase { self.old.phase ≡ Bodies next }
        requires entry { due (state_of self.old).todo ≡ body_due entry }
        requires sound { Sound self.old }
        ensures taken { LineTaken (item_or_fault (body_due entry) (state_of self.old) (left reader.old)) (line_number reader.old) result self.old self.new }
        ensures same { SameLine reader.old reader.new }
    {
        read_opening(reader, self.letter(), entry.kind, self.parts.map)?;
        self.parts.begin(&entry);
        self.opened = Some(entry.kind);
        self.phase = after_opening(entry, next + 1);
        Ok(())
    }

    fn take_map(
        &mut self,
        reader: &mut Reader<'_>,
        entry: kinds::Contents,
        next: usize,
    ) -> Result<(), Fault>
        requires phase { self.old.phase ≡ Map entry next }
        requires sound { Sound self.old }
        requires few { length (left reader.old) ≤ row_number_limit }
        ensures taken { LineTaken (item_or_fault (map_due entry) (state_of self.old) (left reader.old)) (line_number reader.old) result self.old self.new }
        ensures same { SameLine reader.old reader.new }
    {
        let (line, body) = (reader.line(), self.letter());
        read_row(reader, body, &mut self.numbers)?;
        let Draft { parts, numbers, .. } = self;
        if let Err(cause) = parts.add_map(&entry, numbers.as_slice()) {
            return Err(row_fault(cause, line, body));
        }
        self.phase = rows_left(entry, entry.rows - 1, next);
        Ok(())
    }

    fn take_row(
        &mut self,
        reader: &mut Reader<'_>,
        entry: kinds::Contents,
        count: usize,
        next: usize,
    ) -> Result<(), Fault>
        requires phase { self.old.phase ≡ Rows entry count next }
        requires sound { Sound self.old }
        requires few { length (left reader.old) ≤ row_number_limit }
        ensures taken { LineTaken (item_or_fault (row_due entry) (state_of self.old) (left reader.old)) (line_number reader.old) result self.old self.new }
        ensures same { SameLine reader.old reader.new }
    {
        let (line, body) = (reader.line(), self.letter());
        read_row(reader, body, &mut self.numbers)?;
        let Draft { parts, numbers, .. } = self;
        if let Err(cause) = parts.add_row(&entry, numbers.as_slice()) {
            return Err(row_fault(cause, line, body));
        }
        self.phase = rows_left(entry, count - 1, next);
        Ok(())
    }

    // One line, clean and no comment.
    pub(crate) fn take(&mut self, reader: &mut Reader<'_>) -> Result<(), Fault>
        requires sound { Sound self.old }
        requires few { length (left reader.old) ≤ row_number_limit }
        ensures taken { LineTaken (judge (due (state_of self.old).todo) (state_of self.old) true (left reader.old)) (line_number reader.old) result self.old self.new }
        ensures same { SameLine reader.old reader.new }
    {
        let due = self.due();
        if !due.is_of_sort(reader.peek()) {
            return Err(LineFault::plain(due.sort_refusal()).at(reader.line(), self.letter()));
        }
        match self.phase {
            Phase::Heading => self.take_heading(reader),
            Phase::Contents { left } => self.take_entry(reader, left),
            Phase::Bodies { next } => {
                let Due::Body(entry) = due else {
                    return Err(LineFault::plain(Refusal::BadEnd).at(reader.line(), self.letter()));
                };
                self.take_opening(reader, entry, next)
            }
            Phase::Map { entry, next } => self.take_map(reader, entry, next),
            Phase::Rows { entry, left, next } => self.take_row(reader, entry, left, next),
        }
    }
}
