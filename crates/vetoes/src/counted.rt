// What names one atom, as an arc, a row or a mapped atom does, or does not count.
ghost use Rattle.std.specs.Prelude.{◌≡◌, ℕ, ◌≤◌};
ghost use Rattle.assignments.specs.Limits.{atom_limit};
ghost use Rattle.vetoes.specs.Counted.{highest_of, live};

use assignments::AtomNumber;
use assignments::values::value_at;

pub trait Counted {
    // the atom that it names, or 0 where it does not count
    ghost counted: { Self → ℕ };

    fn counted_atom(&self) -> AtomNumber
        ensures { result ≡ counted self.now };

    ghost few: { (x : Self) → counted x ≤ atom_limit };
}

// The highest atom that counts, or 0.
pub fn highest<T: Counted>(items: &[T]) -> usize
    ensures { result ≡ highest_of T.Counted.counted items.now }
{
    items
        .iter()
        .fold(0, |top, item| top.max(item.counted_atom() as usize))
}

// Whether it counts and its atom is true.
pub fn is_live<T: Counted>(assignment: &[u8], item: &T) -> bool
    ensures { result ≡ live T.Counted.counted assignment.now item.now }
{
    value_at(assignment, item.counted_atom()) == Some(true)
}
