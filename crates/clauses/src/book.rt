// A book's tables and what always holds of them.
ghost use Rattle.std.specs.Prelude.{◌≡◌, ◌≤◌, true, length};
ghost use Rattle.tables.specs.Items.{entries};
ghost use Rattle.assignments.specs.Limits.{atom_limit};
ghost use Rattle.assignments.specs.Literals.{all_in_range};
ghost use Rattle.clauses.specs.Stretches.{laid};

use crate::stretch::Stretch;
use crate::{CLAUSE_LIMIT, LITERAL_LIMIT};
use assignments::Literal;
use tables::Table;

#[derive(Drop)]
pub struct ClauseBook {
    pub(crate) atoms: usize,
    pub(crate) literals: Table<Literal, LITERAL_LIMIT>,
    pub(crate) stretches: Table<Stretch, CLAUSE_LIMIT>,
    ghost few: { atoms ≤ atom_limit },
    ghost ranged: { all_in_range atoms (entries literals) ≡ true },
    ghost whole: { laid 0 (entries stretches) (length (entries literals)) ≡ true },
}
