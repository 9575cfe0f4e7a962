// Says the least setting of a nest file that has all the wished literals, or which of the wishes clash: wishes FILE LITERAL..
#![tactic(auto)]

mod answer;
mod asking;

use crate::answer::Answer;
use crate::asking::{answer_to, literals_in};
use anyhow::Context;
use lexer::numbers::number;
use nestfile::Problem;
use nestfile::reading::read;
use refusals::{Fault, Refusal};
use std::env::{self, Args};
use std::fs;
use std::process::ExitCode;

// The status where no answer was printed whole.
const NO_ANSWER: u8 = 2;

// The numbers that the words are.
fn numbers_in(rt: &HostRuntime, words: Args) -> anyhow::Result<Vec<i32>> {
    let mut numbers = Vec::new(rt.alloc());
    for word in words {
        let number = number(word.as_bytes()).context(format_args!("{word:?} is no number"))?;
        numbers.push(number)?;
    }
    Ok(numbers)
}

fn answer_for(rt: &HostRuntime, text: &[u8], numbers: &[i32]) -> anyhow::Result<Answer> {
    let mut problem = Problem::empty();
    if let Err(fault) = read(text, &mut problem) {
        return Ok(Answer::Refused(fault));
    }
    match literals_in(rt.alloc(), numbers)? {
        Some(wishes) => Ok(answer_to(rt.alloc(), &problem, wishes.as_slice())?),
        None => Ok(Answer::Refused(Fault::outside_text(Refusal::LiteralOutOfRange))),
    }
}

fn run(rt: &HostRuntime) -> anyhow::Result<ExitCode> {
    let mut words = env::args(rt)?;
    let Some(path) = words.nth(1) else {
        eprintln!(rt; "usage: wishes FILE LITERAL..")?;
        return Ok(ExitCode::from(NO_ANSWER));
    };
    let numbers = numbers_in(rt, words)?;
    let text = match fs::read(rt, path.as_str()) {
        Ok(text) => text,
        Err(error) => {
            eprintln!(rt; "wishes: {path}: {error}")?;
            return Ok(ExitCode::from(NO_ANSWER));
        }
    };
    let answer = answer_for(rt, text.as_slice(), numbers.as_slice())?;
    print!(rt; "{answer}")?;
    Ok(answer.status())
}

fn main(rt: HostRuntime) -> ExitCode {
    match run(&rt) {
        Ok(status) => status,
        Err(error) => {
            let _ = eprintln!(rt; "wishes: {error}");
            ExitCode::from(NO_ANSWER)
        }
    }
}
