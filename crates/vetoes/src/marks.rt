// Marks, one byte for each atom there can be: where a veto notes a reason before it knows whether it speaks.
ghost use Rattle.std.specs.Prelude.{◌≡◌, ℕ, length, slice_index, is_some};
ghost use Rattle.assignments.specs.Limits.{atom_limit};
ghost use Rattle.vetoes.specs.Marks.{Copied, Answered, marks_in};

use crate::veto::Verdict;
use assignments::ATOM_LIMIT;
use refusals::Refusal;

pub fn blank_marks() -> [u8; ATOM_LIMIT]
    ensures long { length result ≡ atom_limit }
    ensures blank { (i : ℕ) → slice_index result i ≡ 0 }
{
    [0; ATOM_LIMIT]
}

// The first `len` ticks become the marks, and 0 past these. Ticks that are fewer are all written.
#[tactic(auto, using(crate::proofs::Marking::copied_parts))]
pub fn copy_marks(marks: &[u8], len: usize, ticks: &mut [u8])
    ensures { Copied marks.now len ticks.old ticks.new }
{
    let end = ticks.len().min(len);
    let copied = end.min(marks.len());
    ticks[..copied].copy_from_slice(&marks[..copied]);
    ticks[copied..end].fill(0);
}

// What `examine` answers: a veto with a reason speaks, and the reason's marks become the ticks.
pub fn answer(
    reason: Option<&[u8]>,
    assignment: &[u8],
    ticks: &mut [u8],
) -> Result<Verdict, Refusal>
    ensures { Answered (is_some reason.entry) (marks_in reason.entry) assignment.now ticks.old ticks.new result }
{
    if ticks.len() < assignment.len() {
        return Err(Refusal::BufferShort);
    }
    let Some(marks) = reason else {
        return Ok(Verdict::Silent);
    };
    copy_marks(marks, assignment.len(), ticks);
    Ok(Verdict::Speaks)
}
