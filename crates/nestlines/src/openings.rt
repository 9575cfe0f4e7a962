// The line that opens a body.
ghost use Rattle.std.specs.Prelude.{◌≡◌};
ghost use Rattle.lexer.specs.Scans.{seen, left, line_number, SameLine};
ghost use Rattle.nestformat.specs.declared.kinds.Contents.{Contents};
ghost use Rattle.nestformat.specs.Items.{body_line};
ghost use Rattle.nestformat.specs.Due.{State, body_due};
ghost use Rattle.nestlines.specs.Tokens.{opening_told};
ghost use Rattle.nestlines.specs.LineItems.{item_or_fault, LineRead};

use crate::tokens::{ends_line, is_no_number, kind_of, number_within, word_is};
use lexer::reader::{Reader, Token};
use nestformat::MAP_LIMIT;
use nestformat::faults::LineFault;
use nestformat::kinds::BodyKind;
use refusals::{Fault, Refusal};

// Whether the tokens open the body of this kind, under this map.
fn check_opening(
    first: Token<'_>,
    second: Token<'_>,
    third: Token<'_>,
    last: Token<'_>,
    kind: BodyKind,
    map: u16,
) -> Result<(), LineFault>
    ensures { result ≡ opening_told (seen first.entry) (seen second.entry) (seen third.entry) (seen last.entry) kind map }
{
    if is_no_number(third) {
        return Err(LineFault::plain(Refusal::BadNumber));
    }
    let wrong = LineFault::plain(Refusal::BadBody);
    if !word_is(first, b"b") || !ends_line(last) {
        return Err(wrong);
    }
    let Some(told) = kind_of(second) else {
        return Err(wrong);
    };
    let Some(number) = number_within(third, 1, u32::from(MAP_LIMIT)) else {
        return Err(wrong);
    };
    if told != kind || number != u32::from(map) {
        return Err(wrong);
    }
    Ok(())
}

// Whether the line opens the body of this kind, under this map.
pub fn read_opening(
    reader: &mut Reader<'_>,
    body: char,
    kind: BodyKind,
    map: u16,
) -> Result<(), Fault>
    ensures told { (s : State) (e : Contents) → e.kind ≡ kind → s.map ≡ map → LineRead (λ _. body_line e.kind s.map) (item_or_fault (body_due e) s (left reader.old)) (line_number reader.old) body result }
    ensures same { SameLine reader.old reader.new }
{
    let line = reader.line();
    let first = reader.next_token();
    let second = reader.next_token();
    let third = reader.next_token();
    let last = reader.next_token();
    check_opening(first, second, third, last, kind, map).map_err(|fault| fault.at(line, body))
}
