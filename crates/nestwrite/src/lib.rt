// Writing a problem as the text of a nest file.
#![tactic(auto)]

mod problems;
mod rows;

ghost use Rattle.std.specs.Prelude.{◌≡◌, ℕ, ◌≤◌, List, length, Ok};
ghost use Rattle.nestformat.specs.Limits.{text_limit};
ghost use Rattle.nestformat.specs.Items.{items_of};
ghost use Rattle.nestformat.specs.Reading.{reading, written};
ghost use Rattle.nestformat.specs.Laws.{Accepted, Alike};
ghost use Rattle.nestfile.specs.Problems.{told};
ghost use Rattle.writing.specs.Texts.{Copied};

use nestfile::Problem;
use problems::put_problem;
use refusals::Refusal;
use writing::TextOut;

// Writes the text of the problem to the front of the buffer, and returns its length. A buffer shorter than the text is refused,
// and stays as it was.
pub fn write(problem: &Problem, buffer: &mut [u8]) -> Result<usize, Refusal>
    ensures copied { Copied (written (items_of (told problem.now))) buffer.old buffer.new result }
    // So a buffer of TEXT_LIMIT bytes is never refused.
    ensures short { length (written (items_of (told problem.now))) ≤ text_limit }
    // The text is read back as this problem.
    ensures read_back { reading (written (items_of (told problem.now))) ≡ Ok (items_of (told problem.now)) }
    // Each text of this problem has the lines of tokens of the one that is written.
    ensures alike { (t : List ℕ) → Accepted t (told problem.now) → Alike t (written (items_of (told problem.now))) }
{
    let mut out = TextOut::new();
    put_problem(&mut out, problem);
    out.copy_to(buffer)
}
