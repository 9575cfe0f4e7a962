// The walk along the arcs with true atoms, depth first.
ghost use Rattle.std.specs.Prelude.{◌≡◌, ℕ, ◌<◌, true, false, is_some, IfSome, if◌then◌else◌, nat_eq, slice_index_or};
ghost use Rattle.vetoes.specs.Verdicts.{ticked};
ghost use Rattle.cycles.specs.Cyclic.{cyclic};
ghost use Rattle.cycles.specs.Limits.{places};
ghost use Rattle.cycles.specs.Walks.{Done, Walked, Done-prop};

use crate::arc::{Arc, SIGNAL_LIMIT};
use vetoes::counted::is_live;
use vetoes::reason::Reason;

// A table over the signals has a place for each, and place 0 for none.
const PLACES: usize = SIGNAL_LIMIT + 1;

#[derive(Clone, Copy)]
pub(crate) enum Outcome {
    // every chain comes to an end
    Ended,
    // a chain leads to this signal, from which the walk came; the atoms of its arcs are marked
    Closing(usize),
    // a closed chain was found, and its atoms are marked
    Found,
}

fn closing(signal: usize, at: usize) -> Outcome
    ensures { result ≡ (if nat_eq signal at then Outcome.Found else Outcome.Closing signal) }
{
    if signal == at {
        Outcome::Found
    } else {
        Outcome::Closing(signal)
    }
}

#[derive(Drop)]
struct Walk<'a> {
    arcs: &'a [Arc],
    // the atoms of the chain that closes
    reason: Reason<'a>,
    // the signals on the chain that led here
    on: [bool; PLACES],
    // signals that lead to no closed chain, and are not walked again
    done: [bool; PLACES],
    ghost sound: { Done arcs.now reason.assignment.now done } by { Done-prop arcs.now reason.assignment.now done },
}

impl<'a> Walk<'a> {
    fn new(arcs: &'a [Arc], assignment: &'a [u8]) -> Walk<'a>
        ensures arcs { result.arcs.now ≡ arcs.now }
        ensures assignment { result.reason.assignment.now ≡ assignment.now }
        ensures none_on { (s : ℕ) → slice_index_or result.on s false ≡ false }
    {
        Walk {
            arcs,
            reason: Reason::new(assignment),
            on: [false; PLACES],
            done: [false; PLACES],
        }
    }

    // Follows the chains from `at` to their ends.
    fn walk(&mut self, at: usize) -> Outcome
        requires within { at < places }
        requires fresh { slice_index_or self.old.on at false ≡ false }
        ensures arcs { self.new.arcs.now ≡ self.old.arcs.now }
        ensures assignment { self.new.reason.assignment.now ≡ self.old.reason.assignment.now }
        ensures walked { Walked self.old.arcs.now self.old.reason.assignment.now self.old.on self.new.on self.new.done self.new.reason.marks at result }
    {
        if self.done[at] {
            return Outcome::Ended;
        }
        self.on[at] = true;
        for arc in self.arcs {
            if arc.from as usize != at {
                continue;
            }
            if !is_live(self.reason.assignment(), arc) {
                continue;
            }
            let to = arc.to as usize;
            if self.on[to] {
                self.reason.mark(arc.atom);
                return closing(to, at);
            }
            match self.walk(to) {
                Outcome::Ended => {}
                Outcome::Found => return Outcome::Found,
                Outcome::Closing(signal) => {
                    self.reason.mark(arc.atom);
                    return closing(signal, at);
                }
            }
        }
        self.on[at] = false;
        self.done[at] = true;
        Outcome::Ended
    }
}

// The atoms of a closed chain, where the arcs with true atoms contain one.
pub(crate) fn find_chain<'a>(arcs: &'a [Arc], assignment: &'a [u8]) -> Option<Reason<'a>>
    ensures value { is_some result ≡ cyclic arcs.now assignment.now }
    ensures of { IfSome result (λ reason. reason.assignment.now ≡ assignment.now) }
    ensures reason { IfSome result (λ reason. cyclic arcs.now (ticked assignment.now reason.marks) ≡ true) }
{
    let mut walk = Walk::new(arcs, assignment);
    for at in 1..PLACES {
        match walk.walk(at) {
            Outcome::Ended => {}
            Outcome::Found | Outcome::Closing(_) => return Some(walk.reason),
        }
    }
    None
}
