// Mapped atoms, and their values at a host assignment.
ghost use Rattle.std.specs.Prelude.{◌≡◌, ◌≤◌, length};
ghost use Rattle.std.specs.List.{list_all};
ghost use Rattle.assignments.specs.Assignments.{atom as «atom-at»};
ghost use Rattle.assignments.specs.Limits.{atom_limit};
ghost use Rattle.nested.specs.Completing.{Begins};
ghost use Rattle.nested.specs.Nests.{is_atom, is_known, highest_mapped, seen};

use assignments::values::value_at;
use assignments::{ATOM_LIMIT, AtomNumber};

// Whether each is the number of an atom.
pub(crate) fn are_atoms(map: &[AtomNumber]) -> bool
    ensures { result ≡ list_all is_atom map.now }
{
    map.iter()
        .all(|atom| *atom > 0 && *atom as usize <= ATOM_LIMIT)
}

// The highest, or 0.
pub(crate) fn highest(map: &[AtomNumber]) -> usize
    ensures { result ≡ highest_mapped map.now }
{
    map.iter().fold(0, |top, atom| top.max(*atom as usize))
}

// The value of an atom as a byte.
fn value_of(assignment: &[u8], atom: AtomNumber) -> u8
    ensures { result ≡ «atom-at» assignment.now atom }
{
    match value_at(assignment, atom) {
        Some(value) => value as u8,
        None => 2,
    }
}

// Whether the assignment knows each.
pub(crate) fn are_known(map: &[AtomNumber], assignment: &[u8]) -> bool
    ensures { result ≡ list_all is_known (seen map.now assignment.now) }
{
    map.iter().all(|atom| value_of(assignment, *atom) < 2)
}

// Their values, as the first atoms of an assignment that knows nothing else.
pub(crate) fn seen_values(map: &[AtomNumber], assignment: &[u8]) -> [u8; ATOM_LIMIT]
    requires { length map.now ≤ atom_limit }
    ensures long { length result ≡ atom_limit }
    ensures begins { Begins (seen map.now assignment.now) result }
{
    let mut values = [2; ATOM_LIMIT];
    for (i, atom) in map.iter().enumerate() {
        values[i] = value_of(assignment, *atom);
    }
    values
}
