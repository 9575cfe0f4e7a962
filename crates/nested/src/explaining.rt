// Why a nest speaks: known atoms of its host that alone make it speak.
ghost use Rattle.std.specs.Prelude.{◌≡◌};
ghost use Rattle.nested.specs.Completing.{Supported, MarksAll, MarksSupports, Explains};
ghost use Rattle.nested.specs.Plans.{plan_in};

use crate::shape::Shape;
use assignments::literals::{is_true, place_of};
use assignments::{AtomNumber, Literal};
use vetoes::reason::Reason;

// The host atom behind a seen literal that meets the clause; none where an own literal meets it, or none does.
fn support(clause: &[Literal], values: &[u8], map: &[AtomNumber]) -> Option<AtomNumber>
    ensures { Supported map.now values.now clause.now result }
{
    let mut found = None;
    for literal in clause {
        if !is_true(values, *literal) {
            continue;
        }
        let place = place_of(*literal, values.len())?;
        found = Some(*map.get(place)?);
    }
    found
}

fn mark_all(reason: &mut Reason<'_>, atoms: &[AtomNumber])
    ensures of { reason.new.assignment.now ≡ reason.old.assignment.now }
    ensures marks { MarksAll reason.old.assignment.now atoms.now reason.old.marks reason.new.marks }
{
    for atom in atoms {
        reason.mark(*atom);
    }
}

// Marks a host atom for each clause that only seen atoms meet.
fn mark_supports(reason: &mut Reason<'_>, shape: &Shape, values: &[u8])
    ensures of { reason.new.assignment.now ≡ reason.old.assignment.now }
    ensures marks { MarksSupports reason.old.assignment.now (plan_in shape.now).map values.now (plan_in shape.now).clauses reason.old.marks reason.new.marks }
{
    let map = shape.map.as_slice();
    for clause in shape.book.clauses() {
        if let Some(atom) = support(clause, values, map) {
            reason.mark(atom);
        }
    }
}

// The first `front` seen atoms, and a support of each clause.
pub(crate) fn explain<'a>(
    shape: &Shape,
    front: usize,
    values: &[u8],
    assignment: &'a [u8],
) -> Reason<'a>
    ensures of { result.assignment.now ≡ assignment.now }
    ensures explains { Explains assignment.now (plan_in shape.now).map values.now (plan_in shape.now).clauses front result.marks }
{
    let map = shape.map.as_slice();
    let mut reason = Reason::new(assignment);
    mark_all(&mut reason, &map[..front.min(map.len())]);
    mark_supports(&mut reason, shape, values);
    reason
}
