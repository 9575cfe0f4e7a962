// The value of an atom, and whether every atom has one.
ghost use Rattle.std.specs.Prelude.{◌≡◌, min, Decides};
ghost use Rattle.assignments.specs.Assignments.{at, atom as «atom-at», Complete};
ghost use Rattle.assignments.specs.Values.{byte_of};

use crate::AtomNumber;

// The value that a byte stands for, or None for unknown.
pub fn read_value(byte: u8) -> Option<bool>
    ensures { byte_of result ≡ min byte 2 }
{
    match byte {
        0 => Some(false),
        1 => Some(true),
        _ => None,
    }
}

// The value at a place as a byte: 0, 1, or 2 for unknown. Atom k stands at place k - 1.
pub fn byte_at(assignment: &[u8], place: usize) -> u8
    ensures { result ≡ at assignment.now place }
{
    assignment.get(place).map_or(2, |byte| (*byte).min(2))
}

// Atom 0 stands for no atom, and is unknown.
pub fn value_at(assignment: &[u8], atom: AtomNumber) -> Option<bool>
    ensures { byte_of result ≡ «atom-at» assignment.now atom }
{
    if atom == 0 {
        return None;
    }
    read_value(byte_at(assignment, atom as usize - 1))
}

pub fn is_complete(assignment: &[u8], atoms: usize) -> bool
    ensures { Decides result (Complete atoms assignment.now) }
{
    if assignment.len() != atoms {
        return false;
    }
    for byte in assignment {
        if *byte > 1 {
            return false;
        }
    }
    true
}
