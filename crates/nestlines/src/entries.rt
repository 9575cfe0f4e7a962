// A line of the contents.
ghost use Rattle.std.specs.Prelude.{◌≡◌};
ghost use Rattle.lexer.specs.Scans.{seen, left, line_number, SameLine};
ghost use Rattle.nestformat.specs.Items.{contents_line};
ghost use Rattle.nestformat.specs.Due.{State, contents_due, listed, in_order};
ghost use Rattle.nestlines.specs.Entries.{contents_fault_told, contents_told, right_or_fault};
ghost use Rattle.nestlines.specs.LineItems.{item_or_fault, LineRead};

use crate::ranges::{entry_within, has_too_many_atoms};
use crate::tokens::{ends_line, is_no_number, kind_of, word_is};
use lexer::reader::{Reader, Token};
use nestformat::faults::LineFault;
use nestformat::kinds::{BodyKind, Contents};
use refusals::{Fault, Refusal};

// Whether the contents name a body of this kind.
fn is_listed(contents: &[Contents], kind: BodyKind) -> bool
    ensures { result ≡ listed kind contents.now }
{
    for entry in contents {
        if kind == entry.kind {
            return true;
        }
    }
    false
}

// Whether a body of this kind may follow those of the contents so far.
#[tactic(auto, using(crate::proofs::Orders::in_order_some))]
fn is_in_order(contents: &[Contents], kind: BodyKind) -> bool
    ensures { result ≡ in_order kind contents.now }
{
    if contents.is_empty() {
        return kind == BodyKind::Outer;
    }
    if is_listed(contents, kind) {
        return false;
    }
    kind != BodyKind::Below || is_listed(contents, BodyKind::Nest)
}

// What is wrong with an entry of the right form.
fn fault_of(kind: BodyKind, size: i32, own: i32) -> LineFault
    ensures { result ≡ contents_fault_told kind size own }
{
    if has_too_many_atoms(kind, size, own) {
        return LineFault {
            refusal: Refusal::BadContents,
            cause: Some(Refusal::CountOutOfRange),
        };
    }
    LineFault::plain(Refusal::BadContents)
}

// The entry of these numbers, or what is wrong with it.
fn entry_or_fault(
    kind: BodyKind,
    size: i32,
    own: i32,
    rows: i32,
    before: &[Contents],
) -> Result<Contents, LineFault>
    ensures { result ≡ right_or_fault kind size own rows before.now }
{
    let Some(entry) = entry_within(kind, size, own, rows) else {
        return Err(fault_of(kind, size, own));
    };
    if !is_in_order(before, kind) {
        return Err(fault_of(kind, size, own));
    }
    Ok(entry)
}

fn entry_of(
    first: Token<'_>,
    kind: Token<'_>,
    size: Token<'_>,
    own: Token<'_>,
    rows: Token<'_>,
    last: Token<'_>,
    before: &[Contents],
) -> Result<Contents, LineFault>
    ensures { result ≡ contents_told (seen first.entry) (seen kind.entry) (seen size.entry) (seen own.entry) (seen rows.entry) (seen last.entry) before.now }
{
    if is_no_number(size) || is_no_number(own) || is_no_number(rows) {
        return Err(LineFault::plain(Refusal::BadNumber));
    }
    let wrong = LineFault::plain(Refusal::BadContents);
    if !word_is(first, b"t") || !ends_line(last) {
        return Err(wrong);
    }
    let Some(kind) = kind_of(kind) else {
        return Err(wrong);
    };
    let Token::Number { value: size, .. } = size else {
        return Err(wrong);
    };
    let Token::Number { value: own, .. } = own else {
        return Err(wrong);
    };
    let Token::Number { value: rows, .. } = rows else {
        return Err(wrong);
    };
    entry_or_fault(kind, size, own, rows, before)
}

// The entry that the line has, after others.
pub fn read_entry(
    reader: &mut Reader<'_>,
    body: char,
    before: &[Contents],
) -> Result<Contents, Fault>
    ensures told { (s : State) → s.contents ≡ before.now → LineRead contents_line (item_or_fault contents_due s (left reader.old)) (line_number reader.old) body result }
    ensures same { SameLine reader.old reader.new }
{
    let line = reader.line();
    let first = reader.next_token();
    let kind = reader.next_token();
    let size = reader.next_token();
    let own = reader.next_token();
    let rows = reader.next_token();
    let last = reader.next_token();
    entry_of(first, kind, size, own, rows, last, before).map_err(|fault| fault.at(line, body))
}
