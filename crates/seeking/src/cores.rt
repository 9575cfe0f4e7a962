// A minimal core of assumptions that clash: those that the search's reason names, with one after the other left out.
ghost use Rattle.std.specs.Prelude.{◌≡◌, ◌≤◌, length};
ghost use Rattle.assignments.specs.Limits.{atom_limit};
ghost use Rattle.clauses.specs.Books.{clauses_of};
ghost use Rattle.search.specs.Completions.{Allowed};
ghost use Rattle.seeking.specs.Choosing.{KeepsNamed, Narrowed, Clashed};
ghost use Rattle.seeking.specs.Including.{Core};

use crate::assuming::include;
use assignments::literals::place_of;
use assignments::{ATOM_LIMIT, Literal};
use clauses::book::ClauseBook;
use vetoes::marks::blank_marks;
use vetoes::veto::Veto;

// Takes the tick from the assumptions that the reason does not name.
pub(crate) fn untick(assumed: &[Literal], reason: &[u8; ATOM_LIMIT], ticks: &mut [u8])
    requires { length assumed.now ≤ length ticks.old }
    ensures { KeepsNamed assumed.now reason.now ticks.old ticks.new }
{
    for (i, literal) in assumed.iter().enumerate() {
        let Some(place) = place_of(*literal, ATOM_LIMIT) else {
            continue;
        };
        if reason[place] != 1 {
            ticks[i] = 0;
        }
    }
}

// Whether the ticked assumptions clash. If so, only those stay ticked that the reason names.
fn narrow<V: Veto>(
    book: &ClauseBook,
    veto: &mut V,
    assumed: &[Literal],
    ticks: &mut [u8],
    work: &mut [u8],
) -> bool
    requires few { length work.old ≤ atom_limit }
    requires room { length assumed.now ≤ length ticks.old }
    ensures meaning { V.Veto.means veto.new ≡ V.Veto.means veto.old }
    ensures narrowed { Narrowed (Allowed (clauses_of book.now) (V.Veto.means veto.old).speaks) (length work.old) assumed.now ticks.old ticks.new result }
{
    let mut reason = blank_marks();
    if include(book, veto, assumed, Some(ticks), work, &mut reason) {
        return false;
    }
    untick(assumed, &reason, ticks);
    true
}

// Of ticked assumptions that clash, leaves out one after the other for good where the others clash without it.
pub(crate) fn minimize<V: Veto>(
    book: &ClauseBook,
    veto: &mut V,
    assumed: &[Literal],
    ticks: &mut [u8],
    work: &mut [u8],
)
    requires few { length work.old ≤ atom_limit }
    requires room { length assumed.now ≤ length ticks.old }
    ensures meaning { V.Veto.means veto.new ≡ V.Veto.means veto.old }
    ensures core { Clashed (Allowed (clauses_of book.now) (V.Veto.means veto.old).speaks) (length work.old) assumed.now ticks.old → Core (Allowed (clauses_of book.now) (V.Veto.means veto.old).speaks) (length work.old) assumed.now ticks.old ticks.new }
{
    for index in 0..assumed.len() {
        if ticks[index] != 1 {
            continue;
        }
        ticks[index] = 0;
        if !narrow(book, veto, assumed, ticks, work) {
            ticks[index] = 1;
        }
    }
}
