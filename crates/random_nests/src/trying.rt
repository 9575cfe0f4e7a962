// A nest and the same nest by its definition, built alike and asked at the same assignments.
use crate::drawing::{bytes, clause, map};
use crate::plain::{Plain, PlainNest};
use crate::tally::Tally;
use assignments::Literal;
use nested::nested::Nested;
use random::Random;
use refusals::Refusal;
use std::alloc::{AllocError, Global};
use vetoes::veto::{Verdict, Veto};

// How often each nest is asked.
const QUESTIONS: u32 = 40;

// Adds a random clause to both; answers whether the nest takes it.
fn add_clause<V: Veto>(
    heap: Global,
    random: &mut Random,
    atoms: u8,
    nest: &mut Nested<V>,
    clauses: &mut Vec<Vec<Literal>>,
) -> Result<bool, AllocError> {
    let drawn = if atoms > 0 {
        clause(heap, random, atoms)?
    } else {
        Vec::new(heap)
    };
    let right = nest.add(drawn.as_slice()).is_ok();
    clauses.push(drawn)?;
    Ok(right)
}

// Gives the nest the map and the own atoms of the plain one, and both some clauses; answers whether the nest takes all.
fn describe<V: Veto, P>(
    heap: Global,
    random: &mut Random,
    nest: &mut Nested<V>,
    plain: &mut PlainNest<P>,
    atoms: u8,
) -> Result<bool, AllocError> {
    let shaped = nest.shape(plain.map.as_slice(), usize::from(plain.own));
    let mut right = shaped.is_ok();
    for _ in 0..random.below(5) {
        right &= add_clause(heap, random, atoms, nest, &mut plain.clauses)?;
    }
    Ok(right)
}

// A nest over both, unshaped at times, else with a random map into so many host atoms and random clauses. Answers none where the
// nest refuses what it should not.
pub(crate) fn nest<V: Veto + Drop, P: Plain + Drop>(
    heap: Global,
    random: &mut Random,
    veto: V,
    below: P,
    host: u8,
) -> Result<Option<(Nested<V>, PlainNest<P>)>, AllocError> {
    let count = random.below(5);
    let reach = u8::try_from(below.reach()).unwrap_or(0);
    let own = random.below(4).max(reach.saturating_sub(count));
    let mut nest = Nested::new(veto);
    let mut plain = PlainNest {
        below,
        map: map(heap, random, count, host)?,
        own,
        clauses: Vec::new(heap),
        shaped: !random.one_in(16),
    };
    if !plain.shaped {
        plain.map.clear();
        return Ok(Some((nest, plain)));
    }
    let atoms = count.saturating_add(own);
    if describe(heap, random, &mut nest, &mut plain, atoms)? {
        Ok(Some((nest, plain)))
    } else {
        Ok(None)
    }
}

// The assignment with the ticked atoms alone, or none where a tick is neither 0 nor 1 or ticks an atom that is not known.
fn ticked(heap: Global, assignment: &[u8], ticks: &[u8]) -> Result<Option<Vec<u8>>, AllocError> {
    let mut part = Vec::new(heap);
    for (byte, tick) in assignment.iter().zip(ticks.iter()) {
        match (*tick, *byte) {
            (0, _) => part.push(2)?,
            (1, 0 | 1) => part.push(*byte)?,
            _ => return Ok(None),
        }
    }
    Ok(Some(part))
}

// Whether the definition speaks at the ticked atoms alone.
fn is_reason<P: Plain>(
    heap: Global,
    plain: &mut P,
    assignment: &[u8],
    ticks: &[u8],
) -> Result<bool, AllocError> {
    match ticked(heap, assignment, ticks)? {
        Some(part) => Ok(plain.speaks(part.as_slice())),
        None => Ok(false),
    }
}

// Whether the answer is what the definition gives, in every byte of the ticks.
fn is_right<P: Plain>(
    heap: Global,
    plain: &mut P,
    assignment: &[u8],
    before: &[u8],
    after: &[u8],
    answer: Result<Verdict, Refusal>,
) -> Result<bool, AllocError> {
    if before.len() < assignment.len() {
        return Ok(answer == Err(Refusal::BufferShort) && after == before);
    }
    if !plain.speaks(assignment) {
        return Ok(answer == Ok(Verdict::Silent) && after == before);
    }
    let stays = after.get(assignment.len()..) == before.get(assignment.len()..);
    Ok(answer == Ok(Verdict::Speaks) && stays && is_reason(heap, plain, assignment, after)?)
}

// Asks both at the assignment, with a buffer that holds the bytes before.
fn compare<V: Veto, P: Plain>(
    heap: Global,
    nest: &mut V,
    plain: &mut P,
    assignment: &[u8],
    before: &[u8],
    tally: &mut Tally,
) -> Result<(), AllocError> {
    let mut after = Vec::from_slice(heap, before)?;
    let answer = nest.examine(assignment, after.as_mut_slice());
    let right = is_right(heap, plain, assignment, before, after.as_slice(), answer)?;
    tally.add_answer(answer, right);
    Ok(())
}

// Asks at random assignments, partial ones too, of up to three atoms more than the host has.
pub(crate) fn ask<V: Veto, P: Plain>(
    heap: Global,
    random: &mut Random,
    nest: &mut V,
    plain: &mut P,
    host: u8,
    tally: &mut Tally,
) -> Result<(), AllocError> {
    tally.add_nest(nest.reach() == plain.reach());
    for _ in 0..QUESTIONS {
        let count = random.below(host.saturating_add(4));
        let assignment = bytes(heap, random, count)?;
        let room = count.saturating_add(2).saturating_sub(random.below(4));
        let before = bytes(heap, random, room)?;
        compare(
            heap,
            nest,
            plain,
            assignment.as_slice(),
            before.as_slice(),
            tally,
        )?;
    }
    Ok(())
}
