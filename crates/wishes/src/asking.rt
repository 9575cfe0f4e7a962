// Asks the session of a problem for wishes.
use crate::answer::Answer;
use assignments::Literal;
use finder::settings::session_of;
use finder::veto::FileVeto;
use listing::line::Line;
use nestfile::Problem;
use refusals::{Fault, Refusal};
use session::session::Session;
use session::table::Wish;
use std::alloc::{AllocError, Global};
use vetoes::marks::blank_marks;

// The numbers as literals; None where one is too large for any.
pub(crate) fn literals_in(
    heap: Global,
    numbers: &[i32],
) -> Result<Option<Vec<Literal>>, AllocError> {
    let mut literals = Vec::new(heap);
    for number in numbers {
        let Ok(literal) = Literal::try_from(*number) else {
            return Ok(None);
        };
        literals.push(literal)?;
    }
    Ok(Some(literals))
}

// The least setting that has all wishes; None where they clash, and the ticks then mark those that do.
fn ask(
    session: &mut Session<FileVeto>,
    wishes: &[Literal],
    ticks: &mut [u8],
) -> Result<Option<Line>, Refusal> {
    let atoms = session.atoms().ok_or(Refusal::NotSized)?;
    let mut found = blank_marks();
    match session.ask(wishes, &mut found, ticks)? {
        Wish::Chosen => Ok(Some(Line::setting(&found[..atoms])?)),
        Wish::Clash => Ok(None),
    }
}

fn ticked(heap: Global, wishes: &[Literal], ticks: &[u8]) -> Result<Vec<Literal>, AllocError> {
    let mut clashing = Vec::new(heap);
    for (wish, tick) in wishes.iter().zip(ticks) {
        if *tick == 1 {
            clashing.push(*wish)?;
        }
    }
    Ok(clashing)
}

pub(crate) fn answer_to(
    heap: Global,
    problem: &Problem,
    wishes: &[Literal],
) -> Result<Answer, AllocError> {
    let mut session = session_of(problem);
    let mut ticks = vec![in heap; 0; wishes.len()]?;
    match ask(&mut session, wishes, ticks.as_mut_slice()) {
        Ok(Some(line)) => Ok(Answer::Setting(line)),
        Ok(None) => Ok(Answer::Clash(ticked(heap, wishes, ticks.as_slice())?)),
        Err(refusal) => Ok(Answer::Refused(Fault::outside_text(refusal))),
    }
}
