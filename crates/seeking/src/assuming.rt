// Assumed literals as a partial assignment, and the least assignment that includes them.
ghost use Rattle.std.specs.Prelude.{◌≡◌, ◌≤◌, length};
ghost use Rattle.std.specs.Option.{option_copied};
ghost use Rattle.assignments.specs.Limits.{atom_limit};
ghost use Rattle.clauses.specs.Books.{clauses_of};
ghost use Rattle.search.specs.Completions.{Allowed};
ghost use Rattle.seeking.specs.Choosing.{chosen, Assumed, Included};

use crate::completing::complete;
use assignments::literals::place_of;
use assignments::{ATOM_LIMIT, Literal};
use clauses::book::ClauseBook;
use propagation::literal::wanted;
use vetoes::veto::Veto;

// Whether the assumption of this index is to be included: each where no ticks are given, else those that are ticked.
fn is_chosen(only: Option<&[u8]>, index: usize) -> bool
    ensures { result ≡ chosen (option_copied only.entry) index }
{
    only.is_none_or(|ticks| ticks.get(index) == Some(&1))
}

// Gives the chosen literals' atoms their values, every other atom being unknown, and answers false where two of them differ or
// one names no atom.
fn assume(assumed: &[Literal], only: Option<&[u8]>, assignment: &mut [u8]) -> bool
    ensures { Assumed assumed.now (option_copied only.entry) (length assignment.old) assignment.new result }
{
    assignment.fill(2);
    for (index, literal) in assumed.iter().enumerate() {
        if !is_chosen(only, index) {
            continue;
        }
        let Some(place) = place_of(*literal, assignment.len()) else {
            return false;
        };
        let value = wanted(*literal);
        if assignment[place] > 1 {
            assignment[place] = value;
        } else if assignment[place] != value {
            return false;
        }
    }
    true
}

// The least assignment that includes the chosen literals; or the atoms of those that clash.
pub(crate) fn include<V: Veto>(
    book: &ClauseBook,
    veto: &mut V,
    assumed: &[Literal],
    only: Option<&[u8]>,
    found: &mut [u8],
    reason: &mut [u8; ATOM_LIMIT],
) -> bool
    requires { length found.old ≤ atom_limit }
    ensures meaning { V.Veto.means veto.new ≡ V.Veto.means veto.old }
    ensures included { Included (Allowed (clauses_of book.now) (V.Veto.means veto.old).speaks) (length found.old) assumed.now (option_copied only.entry) found.new reason.new result }
{
    if assume(assumed, only, found) {
        return complete(book, veto, found, reason);
    }
    reason.fill(1);
    false
}
