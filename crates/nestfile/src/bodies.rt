// The parts of a problem from none on: a body is begun, and then row after row is added.
ghost use Rattle.std.specs.Prelude.{◌≡◌, ◌<◌, ◌≤◌, ◌++◌, ◌∷◌, [], true, false, length, is_ok, if◌then◌else◌};
ghost use Rattle.std.specs.Result.{result_err};
ghost use Rattle.tables.specs.Items.{entries};
ghost use Rattle.assignments.specs.Limits.{atom_limit};
ghost use Rattle.nestformat.specs.Limits.{row_limit};
ghost use Rattle.nestformat.specs.Kinds.{has_clauses, has_map, atoms_in, in_ranges};
ghost use Rattle.nestformat.specs.declared.kinds.BodyKind.TheVariants.{Outer};
ghost use Rattle.nestformat.specs.Due.{map_due, row_due, atoms_at, host_of};
ghost use Rattle.nestfile.specs.Bodies.{rows_of, clauses_in, NoRows, NoAtoms, IsBegun, IsReady, Others, refusal_at};

use crate::Parts;
use crate::adding::{add_arc, add_clause, add_lines, add_milliamperes, add_nest_clause, nest_of};
use clauses::book::ClauseBook;
use cycles::arc::Arc;
use loads::row::Row;
use nestformat::kinds::{BodyKind, Contents};
use nestlines::ranges::atoms_in;
use refusals::Refusal;
use tables::Table;

// The atoms of the body of this kind, or none.
fn atoms_at(contents: &[Contents], kind: BodyKind) -> usize
    ensures { result ≡ atoms_at kind contents.now }
{
    for entry in contents {
        if kind == entry.kind {
            return atoms_in(entry);
        }
    }
    0
}

impl Parts {
    // No contents and no bodies.
    pub(crate) fn new(map: u16) -> Parts
        ensures map { result.map ≡ map }
        ensures contents { entries result.contents ≡ [] }
        ensures rows { NoRows result }
        ensures atoms { NoAtoms result }
    {
        Parts {
            map,
            contents: Table::new(Contents {
                kind: BodyKind::Outer,
                size: 0,
                own: 0,
                rows: 0,
            }),
            outer: ClauseBook::empty(),
            nest: None,
            below: None,
            arcs: Table::new(Arc {
                atom: 0,
                from: 0,
                to: 0,
            }),
            milliamperes: Table::new(Row { atom: 0, load: 0 }),
            lines: Table::new(Row { atom: 0, load: 0 }),
        }
    }

    // Empties the body that the entry names.
    pub(crate) fn begin(&mut self, entry: &Contents)
        requires { atoms_in entry.now ≤ atom_limit }
        ensures begun { IsBegun entry.now.kind (atoms_in entry.now) self.new }
        ensures others { Others entry.now.kind self.old self.new }
    {
        match entry.kind {
            BodyKind::Outer => {
                if let Ok(book) = ClauseBook::fresh(atoms_in(entry)) {
                    self.outer = book;
                }
            }
            BodyKind::Nest => self.nest = None,
            BodyKind::Below => self.below = None,
            BodyKind::Loop => self.arcs.truncate(0),
            BodyKind::Milliamperes => self.milliamperes.truncate(0),
            BodyKind::Lines => self.lines.truncate(0),
        }
    }

    fn atoms_at(&self, kind: BodyKind) -> usize
        ensures { result ≡ atoms_at kind (entries self.now.contents) }
    {
        atoms_at(self.contents.as_slice(), kind)
    }

    // The map of the nest that the entry names: its first row.
    pub(crate) fn add_map(
        &mut self,
        entry: &Contents,
        numbers: &[i32],
    ) -> Result<(), Option<Refusal>>
        requires mapped { has_map entry.now.kind ≡ true }
        requires few { atoms_in entry.now ≤ atom_limit }
        requires near { atoms_at (host_of entry.now.kind) (entries self.old.contents) ≤ atom_limit }
        requires begun { IsBegun entry.now.kind (atoms_in entry.now) self.old }
        ensures refused { result_err result ≡ refusal_at (map_due entry.now) (entries self.old.contents) [] numbers.now }
        ensures rows { rows_of self.new entry.now.kind ≡ (if is_ok result then numbers.now ∷ [] else []) }
        ensures clauses { clauses_in self.new entry.now.kind ≡ [] }
        ensures ready { is_ok result ≡ true → IsReady entry.now.kind (atoms_in entry.now) self.new }
        ensures others { Others entry.now.kind self.old self.new }
    {
        let (seen, own) = (entry.size as usize, entry.own as usize);
        match entry.kind {
            BodyKind::Nest => {
                let host = self.atoms_at(BodyKind::Outer);
                self.nest = Some(nest_of(numbers, seen, own, host)?);
                Ok(())
            }
            BodyKind::Below => {
                let host = self.atoms_at(BodyKind::Nest);
                self.below = Some(nest_of(numbers, seen, own, host)?);
                Ok(())
            }
            BodyKind::Outer | BodyKind::Loop | BodyKind::Milliamperes | BodyKind::Lines => Err(
                None,
            ),
        }
    }

    // One row more of the body that the entry names, after its map.
    pub(crate) fn add_row(
        &mut self,
        entry: &Contents,
        numbers: &[i32],
    ) -> Result<(), Option<Refusal>>
        requires ranged { in_ranges entry.now ≡ true }
        requires near { atoms_at Outer (entries self.old.contents) ≤ atom_limit }
        requires ready { IsReady entry.now.kind (atoms_in entry.now) self.old }
        requires room { has_clauses entry.now.kind ≡ false → length (rows_of self.old entry.now.kind) < row_limit }
        ensures refused { result_err result ≡ refusal_at (row_due entry.now) (entries self.old.contents) (clauses_in self.old entry.now.kind) numbers.now }
        ensures rows { rows_of self.new entry.now.kind ≡ (if is_ok result then rows_of self.old entry.now.kind ++ numbers.now ∷ [] else rows_of self.old entry.now.kind) }
        ensures clauses { clauses_in self.new entry.now.kind ≡ (if is_ok result then clauses_in self.old entry.now.kind ++ numbers.now ∷ [] else clauses_in self.old entry.now.kind) }
        ensures ready { IsReady entry.now.kind (atoms_in entry.now) self.new }
        ensures others { Others entry.now.kind self.old self.new }
    {
        let atoms = self.atoms_at(BodyKind::Outer);
        match entry.kind {
            BodyKind::Outer => add_clause(&mut self.outer, numbers),
            BodyKind::Nest => add_nest_clause(&mut self.nest, numbers),
            BodyKind::Below => add_nest_clause(&mut self.below, numbers),
            BodyKind::Loop => add_arc(&mut self.arcs, numbers, entry.size as usize, atoms),
            BodyKind::Milliamperes => add_milliamperes(&mut self.milliamperes, numbers, atoms),
            BodyKind::Lines => add_lines(&mut self.lines, numbers, atoms),
        }
    }
}
