// The heading.
ghost use Rattle.std.specs.Prelude.{◌≡◌};
ghost use Rattle.lexer.specs.Scans.{seen, left, line_number, SameLine};
ghost use Rattle.nestformat.specs.Items.{heading_line};
ghost use Rattle.nestformat.specs.Due.{State, heading_due};
ghost use Rattle.nestlines.specs.Tokens.{heading_told};
ghost use Rattle.nestlines.specs.LineItems.{item_or_fault, LineRead};

use crate::tokens::{ends_line, is_no_number, number_within, word_is};
use lexer::reader::{Reader, Token};
use nestformat::faults::LineFault;
use nestformat::kinds::Heading;
use nestformat::{BODY_LIMIT, MAP_LIMIT};
use refusals::{Fault, Refusal};

fn heading_of(
    first: Token<'_>,
    second: Token<'_>,
    map: Token<'_>,
    bodies: Token<'_>,
    last: Token<'_>,
) -> Result<Heading, LineFault>
    ensures { result ≡ heading_told (seen first.entry) (seen second.entry) (seen map.entry) (seen bodies.entry) (seen last.entry) }
{
    if is_no_number(map) || is_no_number(bodies) {
        return Err(LineFault::plain(Refusal::BadNumber));
    }
    let wrong = LineFault::plain(Refusal::BadHeading);
    if !word_is(first, b"p") || !word_is(second, b"nest") || !ends_line(last) {
        return Err(wrong);
    }
    let Some(map) = number_within(map, 1, u32::from(MAP_LIMIT)) else {
        return Err(wrong);
    };
    let Some(bodies) = number_within(bodies, 1, BODY_LIMIT as u32) else {
        return Err(wrong);
    };
    Ok(Heading {
        map: map as u16,
        bodies: bodies as usize,
    })
}

// The heading that the line has.
pub fn read_heading(reader: &mut Reader<'_>, body: char) -> Result<Heading, Fault>
    ensures told { (s : State) → LineRead heading_line (item_or_fault heading_due s (left reader.old)) (line_number reader.old) body result }
    ensures same { SameLine reader.old reader.new }
{
    let line = reader.line();
    let first = reader.next_token();
    let second = reader.next_token();
    let map = reader.next_token();
    let bodies = reader.next_token();
    let last = reader.next_token();
    heading_of(first, second, map, bodies, last).map_err(|fault| fault.at(line, body))
}
