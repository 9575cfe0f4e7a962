// A session and the model of it, which play the same calls: what comes back, and whether it is right in every byte.
use crate::model::Model;
use crate::rules::Plain;
use assignments::Literal;
use runs::play::apply;
use runs::turn::{Call, Done, Reply};
use session::session::Session;
use std::alloc::{AllocError, Global};
use vetoes::veto::Veto;

#[derive(Clone, Copy)]
pub struct Outcome {
    pub reply: Reply,
    pub right: bool,
}

// What the buffers of a call hold: none where it has no such buffer.
#[derive(Drop)]
struct Buffers {
    out: Vec<u8>,
    ticks: Vec<u8>,
}

impl Buffers {
    fn of(heap: Global, call: &Call) -> Result<Buffers, AllocError> {
        let mut buffers = Buffers {
            out: Vec::new(heap),
            ticks: Vec::new(heap),
        };
        match call {
            Call::Next(out) => buffers.out = out.clone()?,
            Call::Ask(_, out, ticks) => {
                buffers.out = out.clone()?;
                buffers.ticks = ticks.clone()?;
            }
            _ => {}
        }
        Ok(buffers)
    }

    // Whether the buffers hold the same now.
    fn stay(&self, out: &[u8], ticks: &[u8]) -> bool {
        out == self.out.as_slice() && ticks == self.ticks.as_slice()
    }

    // Whether only the front was written.
    fn take_front(&self, front: &[u8], out: &[u8], ticks: &[u8]) -> bool {
        is_written(front, self.out.as_slice(), out) && ticks == self.ticks.as_slice()
    }

    // Whether only the ticks of so many assumptions were written.
    fn take_ticks(&self, count: usize, out: &[u8], ticks: &[u8]) -> bool {
        out == self.out.as_slice() && are_ticks(count, self.ticks.as_slice(), ticks)
    }
}

// Whether a buffer has the front, and behind it what it had before.
fn is_written(front: &[u8], before: &[u8], after: &[u8]) -> bool {
    match after.strip_prefix(front) {
        Some(rest) => before.get(front.len()..) == Some(rest),
        None => false,
    }
}

// Whether each tick of so many assumptions is 0 or 1, and the bytes past these are as before.
fn are_ticks(count: usize, before: &[u8], after: &[u8]) -> bool {
    after.len() == before.len()
        && after.get(count..) == before.get(count..)
        && after.iter().take(count).all(|tick| *tick <= 1)
}

// The ticked assumptions.
fn ticked(heap: Global, assumed: &[Literal], ticks: &[u8]) -> Result<Vec<Literal>, AllocError> {
    let pairs = assumed.iter().zip(ticks.iter());
    let ones = pairs.filter(|(_, tick)| **tick == 1);
    ones.map(|(literal, _)| *literal).collect(heap)
}

// The core without the assumption at the place.
fn without(heap: Global, core: &[Literal], place: usize) -> Result<Vec<Literal>, AllocError> {
    let others = core.iter().enumerate().filter(|(at, _)| *at != place);
    others.map(|(_, literal)| *literal).collect(heap)
}

#[derive(Drop)]
pub struct Trial<'a, V: Veto, P> {
    heap: Global,
    session: Session<V>,
    model: Model<'a, P>,
}

impl<'a, V: Veto, P: Plain> Trial<'a, V, P> {
    pub fn new(heap: Global, veto: V, rules: &'a P) -> Trial<'a, V, P> {
        Trial {
            heap,
            session: Session::new(veto),
            model: Model::new(heap, rules),
        }
    }

    pub fn atoms(&self) -> u8 {
        u8::try_from(self.model.atoms()).unwrap_or(0)
    }

    pub fn play(&mut self, call: &mut Call) -> Result<Outcome, AllocError> {
        let before = Buffers::of(self.heap, call)?;
        let reply = apply(&mut self.session, call);
        let right = self.is_right(call, &before, reply)?;
        Ok(Outcome { reply, right })
    }

    // Whether the reply is the model's, with what the buffers of the call hold now and held before.
    fn is_right(
        &mut self,
        call: &Call,
        before: &Buffers,
        reply: Reply,
    ) -> Result<bool, AllocError> {
        let due = match call {
            Call::Size(atoms) => self.model.size(*atoms)?,
            Call::Clause(literals) => self.model.clause(literals.as_slice())?,
            Call::Open => self.model.open()?,
            Call::Close => self.model.close(),
            Call::Rewind => self.model.rewind(),
            Call::Next(out) => return Ok(self.is_right_next(out.as_slice(), before, reply)),
            Call::Ask(assumed, out, ticks) => {
                return self.is_right_ask(assumed, out, ticks, before, reply);
            }
        };
        Ok(reply == due.map(|()| Done::Accepted))
    }

    fn is_right_next(&mut self, out: &[u8], before: &Buffers, reply: Reply) -> bool {
        let before = before.out.as_slice();
        match self.model.next(before.len()) {
            Ok(Some(index)) => match self.model.assignment(index) {
                Some(bytes) => reply == Ok(Done::Handed) && is_written(bytes, before, out),
                None => false,
            },
            Ok(None) => reply == Ok(Done::NoMore) && out == before,
            Err(refusal) => reply == Err(refusal) && out == before,
        }
    }

    fn is_right_ask(
        &self,
        assumed: &[Literal],
        out: &[u8],
        ticks: &[u8],
        before: &Buffers,
        reply: Reply,
    ) -> Result<bool, AllocError> {
        match self
            .model
            .ask(assumed, before.out.len(), before.ticks.len())
        {
            Ok(Some(bytes)) => {
                Ok(reply == Ok(Done::Chosen) && before.take_front(bytes, out, ticks))
            }
            Ok(None) => {
                let told = before.take_ticks(assumed.len(), out, ticks);
                Ok(reply == Ok(Done::Clash) && told && self.are_ticked_core(assumed, ticks)?)
            }
            Err(refusal) => Ok(reply == Err(refusal) && before.stay(out, ticks)),
        }
    }

    fn are_ticked_core(&self, assumed: &[Literal], ticks: &[u8]) -> Result<bool, AllocError> {
        let core = ticked(self.heap, assumed, ticks)?;
        self.is_core(core.as_slice())
    }

    // No admitted assignment includes all literals, and for each of these one includes the others.
    fn is_core(&self, literals: &[Literal]) -> Result<bool, AllocError> {
        if self.model.least_including(literals).is_some() {
            return Ok(false);
        }
        for place in 0..literals.len() {
            let others = without(self.heap, literals, place)?;
            if self.model.least_including(others.as_slice()).is_none() {
                return Ok(false);
            }
        }
        Ok(true)
    }
}
