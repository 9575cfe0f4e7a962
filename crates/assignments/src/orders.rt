// The two orders on assignments: by what is known, and of complete ones by their first difference.
ghost use Rattle.std.specs.Prelude.{◌≡◌, Decides};
ghost use Rattle.assignments.specs.Assignments.{Part, Less};
ghost use Rattle.assignments.specs.Laws.{PrecisionOrder, StrictTotalOrder};

use crate::values::byte_at;

// Whether `whole` has every known value of `part`.
pub fn is_part(part: &[u8], whole: &[u8]) -> bool
    ensures decides { Decides result (Part part.now whole.now) }
    ensures ordered { PrecisionOrder }
{
    part.iter()
        .enumerate()
        .all(|(i, byte)| *byte > 1 || byte_at(whole, i) == *byte)
}

// Whether `left` comes before `right`: at the first atom where they differ, `left` has 0 and `right` has 1.
pub fn precedes(left: &[u8], right: &[u8]) -> bool
    ensures decides { Decides result (Less left.now right.now) }
    ensures total { StrictTotalOrder }
{
    for (i, byte) in left.iter().enumerate() {
        let (l, r) = ((*byte).min(2), byte_at(right, i));
        if l != r {
            return (l, r) == (0, 1);
        }
    }
    false
}
