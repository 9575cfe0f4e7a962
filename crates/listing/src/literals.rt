// The literals of an assignment.
ghost use Rattle.std.specs.Prelude.{◌≡◌, ◌<◌, ◌≤◌, length};
ghost use Rattle.assignments.specs.Limits.{atom_limit};
ghost use Rattle.tables.specs.Items.{entries};
ghost use Rattle.listing.specs.Settings.{literal_at as «literal-here», literals as «literals-at»};

use assignments::{ATOM_LIMIT, Literal};
use tables::Table;

// The literal of the atom at the place that is true where its byte is this one.
fn literal_at(place: usize, byte: u8) -> Literal
    requires { place < atom_limit }
    ensures { result ≡ «literal-here» place byte }
{
    let atom = place as Literal + 1;
    if byte == 1 { atom } else { -atom }
}

// The literals of an assignment, one for each atom.
pub(crate) fn literals_of(assignment: &[u8]) -> Table<Literal, ATOM_LIMIT>
    requires { length assignment.now ≤ atom_limit }
    ensures { entries result ≡ «literals-at» assignment.now }
{
    let mut literals = Table::new(0);
    for (place, byte) in assignment.iter().enumerate() {
        let _ = literals.push(literal_at(place, *byte));
    }
    literals
}
