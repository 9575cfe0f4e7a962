// The reason of a veto, as it is gathered: known atoms of an assignment.
ghost use Rattle.std.specs.Prelude.{◌≡◌, ℕ, slice_index};
ghost use Rattle.vetoes.specs.Marks.{Marks, marked};

use crate::marks::blank_marks;
use assignments::values::value_at;
use assignments::{ATOM_LIMIT, AtomNumber};

// One byte for each atom there can be: 1 at the atoms of the reason, all of them known, and 0 elsewhere.
#[derive(Drop)]
pub struct Reason<'a> {
    assignment: &'a [u8],
    marks: [u8; ATOM_LIMIT],
    ghost known: { Marks assignment.now marks },
}

impl<'a> Reason<'a> {
    // No atom yet.
    pub fn new(assignment: &'a [u8]) -> Reason<'a>
        ensures of { result.assignment.now ≡ assignment.now }
        ensures blank { (i : ℕ) → slice_index result.marks i ≡ 0 }
    {
        Reason {
            assignment,
            marks: blank_marks(),
        }
    }

    // The atom becomes part of the reason, where it is known and there is a mark for it.
    pub fn mark(&mut self, atom: AtomNumber)
        ensures of { self.new.assignment.now ≡ self.old.assignment.now }
        ensures marks { self.new.marks ≡ marked self.old.assignment.now atom self.old.marks }
    {
        if atom as usize <= ATOM_LIMIT && value_at(self.assignment, atom).is_some() {
            self.marks[atom as usize - 1] = 1;
        }
    }

    pub fn assignment(&self) -> &'a [u8]
        ensures { result.now ≡ self.now.assignment.now }
    {
        self.assignment
    }

    // The marks.
    pub fn as_slice(&self) -> &[u8]
        ensures { result.now ≡ self.now.marks }
    {
        &self.marks
    }
}
