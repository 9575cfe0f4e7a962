// A session, and the calls that set what it holds.
ghost use Rattle.std.specs.Prelude.{◌≡◌, ◌≤◌, [], IfSome};
ghost use Rattle.assignments.specs.Limits.{atom_limit};
ghost use Rattle.ledgers.specs.Ledger.{Ledger, fresh, size as «size-call», clause as «clause-call», open_scope, close_scope};
ghost use Rattle.session.specs.declared.table.Place.TheVariants.{BeforeFirst};
ghost use Rattle.session.specs.Standing.{Stands, Keeps, done};

use crate::table::{Place, SCOPE_LIMIT, SessionTable};
use assignments::Literal;
use clauses::book::ClauseBook;
use clauses::stretch::Counts;
use refusals::Refusal;
use vetoes::veto::Veto;

#[derive(Drop)]
pub struct Session<V: Veto> {
    pub(crate) veto: V,
    // none where it is unsized
    pub(crate) table: Option<SessionTable>,
}

// The table of a session over the book, with no scope open and nothing handed out.
fn started(book: ClauseBook) -> SessionTable
    ensures book { result.book ≡ book }
    ensures opened { result.opened ≡ 0 }
    ensures place { result.place ≡ BeforeFirst }
{
    SessionTable {
        book,
        scopes: [Counts {
            clauses: 0,
            literals: 0,
        }; SCOPE_LIMIT],
        opened: 0,
        place: Place::BeforeFirst,
    }
}

impl<V: Veto> Session<V> {
    // An unsized session over the veto.
    pub fn new(veto: V) -> Session<V>
        ensures veto { result.veto ≡ veto }
        ensures stands { Stands result.table fresh }
    {
        Session { veto, table: None }
    }

    // The number of atoms, or none where the session is unsized.
    pub fn atoms(&self) -> Option<usize>
        ensures size { (l : Ledger) → Stands self.now.table l → result ≡ l.size }
        ensures few { IfSome result (λ n. n ≤ atom_limit) }
    {
        self.table.as_ref().map(|table| table.book.atoms())
    }

    pub fn size(&mut self, atoms: usize) -> Result<(), Refusal>
        ensures meaning { V.Veto.means self.new.veto ≡ V.Veto.means self.old.veto }
        ensures keeps { Keeps (V.Veto.means self.old.veto) self.old.table self.new.table («size-call» atoms) (done result []) }
    {
        let book = ClauseBook::fresh(atoms)?;
        if self.veto.reach() > atoms {
            return Err(Refusal::ReachOutOfRange);
        }
        self.table = Some(started(book));
        Ok(())
    }

    pub fn clause(&mut self, literals: &[Literal]) -> Result<(), Refusal>
        ensures meaning { V.Veto.means self.new.veto ≡ V.Veto.means self.old.veto }
        ensures keeps { Keeps (V.Veto.means self.old.veto) self.old.table self.new.table («clause-call» literals.now) (done result []) }
    {
        let table = self.table.as_mut().ok_or(Refusal::NotSized)?;
        table.book.add(literals)
    }

    pub fn open(&mut self) -> Result<(), Refusal>
        ensures meaning { V.Veto.means self.new.veto ≡ V.Veto.means self.old.veto }
        ensures keeps { Keeps (V.Veto.means self.old.veto) self.old.table self.new.table open_scope (done result []) }
    {
        let table = self.table.as_mut().ok_or(Refusal::NotSized)?;
        if table.opened >= SCOPE_LIMIT {
            return Err(Refusal::ScopeTableFull);
        }
        table.scopes[table.opened] = table.book.counts();
        table.opened += 1;
        Ok(())
    }

    pub fn close(&mut self) -> Result<(), Refusal>
        ensures meaning { V.Veto.means self.new.veto ≡ V.Veto.means self.old.veto }
        ensures keeps { Keeps (V.Veto.means self.old.veto) self.old.table self.new.table close_scope (done result []) }
    {
        let table = self.table.as_mut().ok_or(Refusal::NotSized)?;
        if table.opened == 0 {
            return Err(Refusal::NoScope);
        }
        table.opened -= 1;
        let opening = table.scopes[table.opened];
        table.book.cut_back(opening);
        table.place = Place::BeforeFirst;
        Ok(())
    }
}
