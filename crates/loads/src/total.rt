// The total of the rows with true atoms, and which of them already make it too much.
ghost use Rattle.std.specs.Prelude.{◌≡◌, true};
ghost use Rattle.vetoes.specs.Verdicts.{ticked};
ghost use Rattle.loads.specs.Rows.{total};

use crate::kind::LoadKind;
use crate::row::Row;
use vetoes::counted::is_live;
use vetoes::reason::Reason;

pub fn total_of<L: LoadKind>(assignment: &[u8], rows: &[Row<L>]) -> L
    ensures { result ≡ total L.LoadKind.EMPTY L.LoadKind.join assignment.now rows.now }
{
    let mut all = L::EMPTY;
    for row in rows {
        if is_live(assignment, row) {
            all = all.joined(row.load);
        }
    }
    all
}

// The true atoms row by row, until their joined load is over the limit.
pub(crate) fn explain<'a, L: LoadKind>(
    assignment: &'a [u8],
    rows: &[Row<L>],
    limit: L,
) -> Reason<'a>
    ensures of { result.assignment.now ≡ assignment.now }
    ensures over { L.LoadKind.over limit (total L.LoadKind.EMPTY L.LoadKind.join assignment.now rows.now) ≡ true → L.LoadKind.over limit (total L.LoadKind.EMPTY L.LoadKind.join (ticked assignment.now result.marks) rows.now) ≡ true }
{
    let mut reason = Reason::new(assignment);
    let mut sum = L::EMPTY;
    for row in rows {
        if !is_live(assignment, row) {
            continue;
        }
        sum = sum.joined(row.load);
        reason.mark(row.atom);
        if sum.is_over(limit) {
            break;
        }
    }
    reason
}
