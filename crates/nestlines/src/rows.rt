// The numbers of a row.
ghost use Rattle.std.specs.Prelude.{◌≡◌, [], true};
ghost use Rattle.tables.specs.Items.{entries};
ghost use Rattle.lexer.specs.Numbers.{all_numbers};
ghost use Rattle.lexer.specs.Scans.{left, line_number, SameLine};
ghost use Rattle.nestlines.specs.Closed.{closed, fitting, Found, RowRead};

use lexer::numbers::are_numbers;
use lexer::reader::{Reader, Token};
use nestformat::faults::LineFault;
use refusals::{Fault, Refusal};
use tables::Table;

// The most numbers that a row can have in a text that is short enough: each takes two bytes at least.
pub const ROW_NUMBER_LIMIT: usize = 30_000;

pub type RowNumbers = Table<i32, ROW_NUMBER_LIMIT>;

// The numbers before the closing 0, which is the row's last token and its only 0.
fn read_numbers(reader: &mut Reader<'_>, body: char, numbers: &mut RowNumbers) -> Result<(), Fault>
    requires all { all_numbers (left reader.old) ≡ true }
    requires none { entries numbers.old ≡ [] }
    ensures found { Found (fitting (closed (left reader.old))) (entries numbers.new) (line_number reader.old) body result }
    ensures same { SameLine reader.old reader.new }
{
    let line = reader.line();
    loop {
        let Token::Number { value, .. } = reader.next_token() else {
            return Err(LineFault::plain(Refusal::RowRefused).at(line, body));
        };
        if value == 0 {
            break;
        }
        if !numbers.push(value) {
            return Err(LineFault::plain(Refusal::RowRefused).at(line, body));
        }
    }
    let Token::LineEnd { .. } = reader.next_token() else {
        return Err(LineFault::plain(Refusal::RowRefused).at(line, body));
    };
    Ok(())
}

// The numbers of the row that the line has. A row that is refused leaves none.
pub fn read_row(reader: &mut Reader<'_>, body: char, numbers: &mut RowNumbers) -> Result<(), Fault>
    ensures read { RowRead (left reader.old) (entries numbers.new) (line_number reader.old) body result }
    ensures same { SameLine reader.old reader.new }
{
    numbers.truncate(0);
    if !are_numbers(reader.rest()) {
        return Err(LineFault::plain(Refusal::BadNumber).at(reader.line(), body));
    }
    let read = read_numbers(reader, body, numbers);
    if read.is_err() {
        numbers.truncate(0);
    }
    read
}
