// The session of a problem.
ghost use Rattle.std.specs.Prelude.{◌≡◌, ◌≤◌, ◌↔◌, ℕ, List, [], true, IfOk, IsOk, IsOkAnd};
ghost use Rattle.assignments.specs.Limits.{atom_limit};
ghost use Rattle.clauses.specs.Books.{clauses_of};
ghost use Rattle.ledgers.specs.Admitted.{Admitted};
ghost use Rattle.session.specs.Standing.{Stands};
ghost use Rattle.nestfile.specs.Problems.{told};
ghost use Rattle.finder.specs.Fitting.{fit};
ghost use Rattle.finder.specs.Meanings.{file_means};
ghost use Rattle.finder.specs.Sessions.{started, file_ledger};
ghost use Rattle.finder.specs.Vetoed.{AdmittedBy};

use crate::veto::{FileVeto, veto_of};
use clauses::book::ClauseBook;
use nestfile::Problem;
use refusals::Refusal;
use session::session::Session;
use vetoes::veto::Veto;

// Holds every clause of the book in a session that holds none.
fn hold_all<V: Veto>(session: &mut Session<V>, book: &ClauseBook) -> Result<(), Refusal>
    ensures meaning { V.Veto.means session.new.veto ≡ V.Veto.means session.old.veto }
    ensures stands { (n : ℕ) → Stands session.old.table (started n []) → fit n [] (clauses_of book.now) ≡ true → IsOk result × Stands session.new.table (started n (clauses_of book.now)) }
{
    for clause in book.clauses() {
        session.clause(clause)?;
    }
    Ok(())
}

// A session of so many atoms over the veto, with every clause of the book held.
fn holding<V: Veto + Drop>(veto: V, atoms: usize, book: &ClauseBook) -> Result<Session<V>, Refusal>
    ensures meaning { IfOk result (λ session. V.Veto.means session.veto ≡ V.Veto.means veto) }
    ensures stands { atoms ≤ atom_limit → (V.Veto.means veto).reach ≤ atoms → fit atoms [] (clauses_of book.now) ≡ true → IsOkAnd result (λ session. Stands session.table (started atoms (clauses_of book.now))) }
{
    let mut session = Session::new(veto);
    session.size(atoms)?;
    hold_all(&mut session, book)?;
    Ok(session)
}

// It admits exactly what the file admits, and stands before the first.
pub fn session_of(problem: &Problem) -> Session<FileVeto>
    ensures meaning { ⟦<FileVeto as Veto>⟧.means result.veto ≡ file_means (told problem.now) }
    ensures stands { Stands result.table (file_ledger (told problem.now)) }
    ensures admits { (q : List ℕ) → Admitted (⟦<FileVeto as Veto>⟧.means result.veto) (file_ledger (told problem.now)) q ↔ AdmittedBy (told problem.now) q }
{
    let held = problem.outer();
    match holding(veto_of(problem), held.atoms(), held) {
        Ok(session) => session,
        Err(_) => unreachable!(),
    }
}
