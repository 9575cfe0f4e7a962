// The search of a nest: its seen atoms stay as the host has them, and its own atoms are given values.
ghost use Rattle.std.specs.Prelude.{◌≡◌, IfSome, is_some};
ghost use Rattle.nested.specs.Completing.{Completed};
ghost use Rattle.nested.specs.Nests.{seen, stalls};
ghost use Rattle.nested.specs.Plans.{plan_in};

use crate::mapping::{are_known, seen_values};
use crate::shape::Shape;
use assignments::ATOM_LIMIT;
use search::find::{Finding, find_least};
use vetoes::marks::blank_marks;
use vetoes::veto::Veto;

// The seen values, completed so that every clause is met and the veto below is silent. There is none where a seen atom that
// the veto below looks at is unknown.
pub(crate) fn complete<V: Veto>(
    shape: &Shape,
    below: &mut V,
    assignment: &[u8],
) -> Option<[u8; ATOM_LIMIT]>
    ensures meaning { V.Veto.means below.new ≡ V.Veto.means below.old }
    ensures value { is_some result ≡ stalls (plan_in shape.now) (V.Veto.means below.old) assignment.now }
    ensures completed { IfSome result (λ q. Completed (plan_in shape.now) (V.Veto.means below.old) (seen (plan_in shape.now).map assignment.now) q) }
{
    let map = shape.map.as_slice();
    let front = below.reach().min(map.len());
    if !are_known(&map[..front], assignment) {
        return None;
    }
    let mut values = seen_values(map, assignment);
    let start = &mut values[..shape.book.atoms()];
    let mut ticks = blank_marks();
    match find_least(&shape.book, below, start, map.len(), &mut ticks) {
        Ok(Finding::Found) => Some(values),
        Ok(Finding::Nothing) => None,
        Err(_) => None,
    }
}
