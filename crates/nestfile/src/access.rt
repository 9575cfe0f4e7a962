// The empty problem, and what a problem holds.
ghost use Rattle.std.specs.Prelude.{◌≡◌, ◌≤◌, ◌∷◌, length, map, pos, is_some, IfSome};
ghost use Rattle.tables.specs.Items.{entries};
ghost use Rattle.clauses.specs.Books.{atoms_of, clauses_of};
ghost use Rattle.nestlines.specs.Rows.{arc_numbers, load_numbers};
ghost use Rattle.nestformat.specs.Limits.{row_limit};
ghost use Rattle.nestformat.specs.declared.kinds.BodyKind.TheVariants.{Outer, Nest, Below, Loop, Milliamperes, Lines};
ghost use Rattle.nestformat.specs.Items.{contents_of};
ghost use Rattle.nestformat.specs.Bodies.{rows_at};
ghost use Rattle.nestformat.specs.Due.{listed, atoms_at};
ghost use Rattle.nestfile.specs.Problems.{told, empty_problem};

use crate::{NestBody, Parts, Problem};
use clauses::book::ClauseBook;
use cycles::arc::Arc;
use loads::kind::{Lines, Milliamperes};
use loads::row::Row;
use nestformat::kinds::{BodyKind, Contents};

impl Problem {
    // Map 1, and an outer body without atoms or rows.
    pub fn empty() -> Problem
        ensures { told result ≡ empty_problem }
    {
        let mut parts = Parts::new(1);
        let _ = parts.contents.push(Contents {
            kind: BodyKind::Outer,
            size: 0,
            own: 0,
            rows: 0,
        });
        Problem { parts }
    }

    pub fn map(&self) -> u16
        ensures { result ≡ (told self.now).map }
    {
        self.parts.map
    }

    // One entry for each body, in their order.
    pub fn contents(&self) -> &[Contents]
        ensures { result.now ≡ contents_of (told self.now).bodies }
    {
        self.parts.contents.as_slice()
    }

    // The clauses of the outer body, over its atoms.
    pub fn outer(&self) -> &ClauseBook
        ensures rows { clauses_of result.now ≡ rows_at Outer (told self.now).bodies }
        ensures atoms { atoms_of result.now ≡ atoms_at Outer (contents_of (told self.now).bodies) }
    {
        &self.parts.outer
    }

    // The nest, where the contents name one: its first row is the map, the others are clauses over its seen and own atoms.
    pub fn nest(&self) -> Option<&NestBody>
        ensures there { is_some result ≡ listed Nest (contents_of (told self.now).bodies) }
        ensures rows { IfSome result (λ b. (map pos (entries b.now.map) ∷ clauses_of b.now.book) ≡ rows_at Nest (told self.now).bodies) }
        ensures atoms { IfSome result (λ b. atoms_of b.now.book ≡ atoms_at Nest (contents_of (told self.now).bodies)) }
    {
        self.parts.nest.as_ref()
    }

    // The nest below it, likewise.
    pub fn below(&self) -> Option<&NestBody>
        ensures there { is_some result ≡ listed Below (contents_of (told self.now).bodies) }
        ensures rows { IfSome result (λ b. (map pos (entries b.now.map) ∷ clauses_of b.now.book) ≡ rows_at Below (told self.now).bodies) }
        ensures atoms { IfSome result (λ b. atoms_of b.now.book ≡ atoms_at Below (contents_of (told self.now).bodies)) }
    {
        self.parts.below.as_ref()
    }

    // The arcs of the loop body, or none.
    pub fn arcs(&self) -> &[Arc]
        ensures rows { map arc_numbers result.now ≡ rows_at Loop (told self.now).bodies }
        ensures few { length result.now ≤ row_limit }
    {
        self.parts.arcs.as_slice()
    }

    // The loads in milliamperes, without their limit, or none.
    pub fn milliamperes(&self) -> &[Row<Milliamperes>]
        ensures rows { map load_numbers result.now ≡ rows_at Milliamperes (told self.now).bodies }
        ensures few { length result.now ≤ row_limit }
    {
        self.parts.milliamperes.as_slice()
    }

    // The loads by lines, without their limit, or none.
    pub fn lines(&self) -> &[Row<Lines>]
        ensures rows { map load_numbers result.now ≡ rows_at Lines (told self.now).bodies }
        ensures few { length result.now ≤ row_limit }
    {
        self.parts.lines.as_slice()
    }
}
