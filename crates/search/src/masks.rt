// Masks of ticked atoms, one byte for each atom there can be, and the first atom to decide.
ghost use Rattle.std.specs.Prelude.{length, MatchOption};
ghost use Rattle.propagation.specs.States.{Filled};
ghost use Rattle.propagation.specs.Ticking.{Adds};
ghost use Rattle.search.specs.Completions.{FirstFree};
ghost use Rattle.search.specs.Masks.{Ticked};

use assignments::ATOM_LIMIT;

// The first place from `from` on that has no value.
pub(crate) fn first_free(assignment: &[u8], from: usize) -> Option<usize>
    ensures { MatchOption result (Filled from assignment.now) (FirstFree from assignment.now) }
{
    (from..assignment.len()).find(|place| assignment[*place] > 1)
}

// Ticks what `other` ticks too.
pub(crate) fn join(other: &[u8; ATOM_LIMIT], ticks: &mut [u8; ATOM_LIMIT])
    ensures { Adds (Ticked other.now (length other.now)) ticks.old ticks.new }
{
    for (i, mark) in other.iter().enumerate() {
        if *mark == 1 {
            ticks[i] = 1;
        }
    }
}
