// Calls as turns of a list, each with room for what it writes.
use assignments::Literal;
use runs::turn::{Call, Done, Turn};
use std::alloc::{AllocError, Global};

// Atom 1 is the raw output, atom 2 the filter, atom 3 the motor brake.
pub(crate) const ATOMS: usize = 3;

pub(crate) fn clause(heap: Global, literals: &[Literal]) -> Result<Call, AllocError> {
    Ok(Call::Clause(literals.to_vec(heap)?))
}

pub(crate) fn next(heap: Global) -> Result<Call, AllocError> {
    Ok(Call::Next([0; ATOMS].to_vec(heap)?))
}

pub(crate) fn ask(heap: Global, assumed: &[Literal]) -> Result<Call, AllocError> {
    let out = [0; ATOMS].to_vec(heap)?;
    let ticks = [0; ATOMS].to_vec(heap)?;
    Ok(Call::Ask(assumed.to_vec(heap)?, out, ticks))
}

// The replies are written as the turns are played.
pub(crate) fn turns(heap: Global, calls: Vec<Call>) -> Result<Vec<Turn>, AllocError> {
    let reply = Ok(Done::Accepted);
    let turns = calls.into_iter().map(|call| Turn { call, reply });
    turns.collect(heap)
}
