// A text read into a problem.
ghost use Rattle.std.specs.Prelude.{◌≡◌, ◌+◌, ◌≤◌, true, IfOk, IfErr, length};
ghost use Rattle.lexer.specs.Scans.{current, after, whole, line_number, SameLine};
ghost use Rattle.nestformat.specs.Limits.{text_limit};
ghost use Rattle.nestformat.specs.Reading.{accept, reading, reading_from, finished};
ghost use Rattle.nestformat.specs.Laws.{Accepted, Faulty};
ghost use Rattle.nestfile.specs.Problems.{told};
ghost use Rattle.nestfile.specs.Read.{ReadAs, IsRead, SpeltIsRead};
ghost use Rattle.nestfile.specs.Drafts.{state_of, items_in, Sound, LineTaken, Answered};

use crate::Problem;
use crate::drafts::Draft;
use lexer::bytes::is_clean;
use lexer::reader::Reader;
use nestformat::TEXT_LIMIT;
use nestformat::faults::LineFault;
use nestlines::due::is_skipped;
use refusals::{Fault, Refusal};

// The line that the reader stands at, which counts, taken by the draft.
fn read_line(reader: &mut Reader<'_>, draft: &mut Draft) -> Result<(), Fault>
    requires short { length (whole reader.old) ≤ text_limit }
    requires sound { Sound draft.old }
    ensures taken { LineTaken (accept (state_of draft.old) (current reader.old)) (line_number reader.old) result draft.old draft.new }
    ensures same { SameLine reader.old reader.new }
{
    if !is_clean(reader.rest()) {
        return Err(LineFault::plain(Refusal::BadByte).at(reader.line(), draft.letter()));
    }
    draft.take(reader)
}

// The lines from the reader's on, each taken by the draft, or the first fault.
fn read_lines(reader: &mut Reader<'_>, draft: &mut Draft) -> Result<(), Fault>
    requires short { length (whole reader.old) ≤ text_limit }
    requires sound { Sound draft.old }
    ensures answered { Answered (reading_from (state_of draft.old) (line_number reader.old + 1) (after reader.old)) result (items_in draft.old) (items_in draft.new) }
    ensures done { IfOk result (λ _. (finished (state_of draft.new).todo ≡ true) × Sound draft.new) }
{
    while reader.next_line() {
        if is_skipped(reader.peek()) {
            continue;
        }
        read_line(reader, draft)?;
    }
    if !draft.is_done() {
        return Err(LineFault::plain(Refusal::BadEnd).at(reader.line() + 1, draft.letter()));
    }
    Ok(())
}

// The problem that the text is read as, or the first fault.
fn problem_of(text: &[u8]) -> Result<Problem, Fault>
    ensures { ReadAs (reading text.now) result }
{
    if text.len() > TEXT_LIMIT {
        return Err(Fault::outside_text(Refusal::TextTooLong));
    }
    let mut reader = Reader::new(text);
    let mut draft = Draft::new();
    read_lines(&mut reader, &mut draft)?;
    let Draft { parts, .. } = draft;
    Ok(Problem { parts })
}

// Reads any text into the problem. A refused one leaves the empty problem.
pub fn read(text: &[u8], problem: &mut Problem) -> Result<(), Fault>
    // What the format says of this text, exactly.
    ensures read { IsRead (reading text.now) result (told problem.new) }
    // A text that is read spells the problem that is held afterwards.
    ensures accepted { IfOk result (λ _. Accepted text.now (told problem.new)) }
    // Whatever problem a text spells is read, and is the one that is held: the text spells no other.
    ensures spelt { SpeltIsRead text.now result (told problem.new) }
    // A text that is refused is too long, or its first faulty line is told.
    ensures refused { IfErr result (λ f. Faulty text.now f) }
{
    match problem_of(text) {
        Ok(found) => {
            *problem = found;
            Ok(())
        }
        Err(fault) => {
            *problem = Problem::empty();
            Err(fault)
        }
    }
}
