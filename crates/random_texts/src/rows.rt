// Which rows a body takes.
use crate::model::{Contents, Kind, Model};
use crate::reading::Wrong;
use refusals::Refusal;

const CLAUSES: usize = 400;

const LITERALS: usize = 2_000;

const MILLIAMPERES: i32 = 60_000;

const LINES: i32 = 65_535;

fn unless(right: bool, cause: Option<Refusal>) -> Result<(), Wrong> {
    if right {
        return Ok(());
    }
    Err(Wrong::Refused(Refusal::RowRefused, cause))
}

fn is_within(number: i32, limit: i32) -> bool {
    (1..=limit).contains(&number)
}

fn refuse_map(contents: Contents, atoms: i32, row: &[i32]) -> Result<(), Wrong> {
    unless(i32::try_from(row.len()) == Ok(contents.size), None)?;
    let right = row.iter().all(|atom| is_within(*atom, atoms));
    unless(right, Some(Refusal::LiteralOutOfRange))
}

fn refuse_clause(atoms: i32, held: &[Vec<i32>], row: &[i32]) -> Result<(), Wrong> {
    let right = row
        .iter()
        .all(|literal| is_within(literal.saturating_abs(), atoms));
    unless(right, Some(Refusal::LiteralOutOfRange))?;
    unless(held.len() < CLAUSES, Some(Refusal::ClauseTableFull))?;
    let lengths = held.iter().map(|clause| clause.len());
    let literals = lengths.fold(row.len(), |sum: usize, length| sum.saturating_add(length));
    unless(literals <= LITERALS, Some(Refusal::LiteralTableFull))
}

fn refuse_arc(signals: i32, atoms: i32, row: &[i32]) -> Result<(), Wrong> {
    let [atom, from, to] = row else {
        return unless(false, None);
    };
    unless(is_within(*from, signals) && is_within(*to, signals), None)?;
    unless(is_within(*atom, atoms), Some(Refusal::LiteralOutOfRange))
}

fn refuse_load(limit: i32, atoms: i32, row: &[i32]) -> Result<(), Wrong> {
    let [atom, load] = row else {
        return unless(false, None);
    };
    unless(is_within(*load, limit), None)?;
    unless(is_within(*atom, atoms), Some(Refusal::LiteralOutOfRange))
}

// Refuses the row that comes after the rows held, unless it is right for the body.
pub fn refuse_row(
    model: &Model,
    contents: Contents,
    held: &[Vec<i32>],
    row: &[i32],
) -> Result<(), Wrong> {
    let outer = model.atoms_of(Kind::Outer);
    match (contents.kind, held) {
        (Kind::Outer, _) => refuse_clause(outer, held, row),
        (Kind::Nest, []) => refuse_map(contents, outer, row),
        (Kind::Below, []) => refuse_map(contents, model.atoms_of(Kind::Nest), row),
        (Kind::Nest | Kind::Below, [_, clauses @ ..]) => {
            refuse_clause(contents.atoms(), clauses, row)
        }
        (Kind::Loop, _) => refuse_arc(contents.size, outer, row),
        (Kind::Milliamperes, _) => refuse_load(MILLIAMPERES, outer, row),
        (Kind::Lines, _) => refuse_load(LINES, outer, row),
    }
}
