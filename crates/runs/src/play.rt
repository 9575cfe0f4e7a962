// A call on a session, and a list of calls on a fresh one.
ghost use Rattle.std.specs.Prelude.{◌≡◌, ℕ, length, slice_index_or};
ghost use Rattle.ledgers.specs.Law.{Lawful};
ghost use Rattle.ledgers.specs.Ledger.{ledger};
ghost use Rattle.session.specs.Standing.{Stands, Keeps};
ghost use Rattle.runs.specs.Histories.{called, asked, answer, no_turn, history};

use crate::turn::{Call, Done, Reply, Turn};
use session::session::Session;
use vetoes::veto::Veto;

// Carries the call out, with its buffers written in place.
pub fn apply<V: Veto>(session: &mut Session<V>, call: &mut Call) -> Reply
    ensures meaning { V.Veto.means session.new.veto ≡ V.Veto.means session.old.veto }
    ensures keeps { Keeps (V.Veto.means session.old.veto) session.old.table session.new.table (called call.old) (answer result call.new) }
    ensures arguments { asked call.new ≡ asked call.old }
{
    match call {
        Call::Size(atoms) => session.size(*atoms)?,
        Call::Clause(literals) => session.clause(literals)?,
        Call::Open => session.open()?,
        Call::Close => session.close()?,
        Call::Rewind => session.rewind()?,
        Call::Next(out) => return Ok(session.next(out)?.into()),
        Call::Ask(assumed, out, ticks) => return Ok(session.ask(assumed, out, ticks)?.into()),
    }
    Ok(Done::Accepted)
}

// Plays the turns one after the other on a fresh session over the veto, which is handed back with the session.
pub fn play<V: Veto>(veto: V, turns: &mut [Turn]) -> Session<V>
    ensures meaning { V.Veto.means result.veto ≡ V.Veto.means veto }
    ensures lawful { Lawful (V.Veto.means veto) (history (length turns.old) turns.old turns.new) }
    ensures stands { Stands result.table (ledger (history (length turns.old) turns.old turns.new)) }
    ensures arguments { (i : ℕ) → asked (slice_index_or turns.new i no_turn).call ≡ asked (slice_index_or turns.old i no_turn).call }
{
    let mut session = Session::new(veto);
    for turn in turns {
        turn.reply = apply(&mut session, &mut turn.call);
    }
    session
}
