// How many calls were played, by call and by answer.
use crate::calls::{NAMES, Name};
use crate::playing::Outcome;
use runs::turn::{Call, Done};
use std::fmt;

// The refusals that a session has are numbered from 1 to 9.
const NUMBERS: usize = 10;

// The answers but for the refusals.
#[derive(Clone, Copy)]
enum Answer {
    Accepted,
    HandedOut,
    NoMore,
    Chosen,
    // by the number of assumptions in the core: none, one, or more
    ClashOfNone,
    ClashOfOne,
    ClashOfMore,
}

// In the order of the answers.
const ANSWERS: [&str; 7] = [
    "accepted",
    "handed out",
    "no more",
    "chosen",
    "clash with a core of none",
    "of one",
    "of more",
];

// How many ticks the call has.
fn count_ticks(call: &Call) -> usize {
    match call {
        Call::Ask(assumed, _, ticks) => {
            let counted = ticks.iter().take(assumed.len());
            counted.filter(|tick| **tick == 1).count()
        }
        _ => 0,
    }
}

impl Answer {
    // What was done, with the call as it stands afterwards.
    fn of(done: Done, call: &Call) -> Answer {
        match done {
            Done::Accepted => Answer::Accepted,
            Done::Handed => Answer::HandedOut,
            Done::NoMore => Answer::NoMore,
            Done::Chosen => Answer::Chosen,
            Done::Clash => match count_ticks(call) {
                0 => Answer::ClashOfNone,
                1 => Answer::ClashOfOne,
                _ => Answer::ClashOfMore,
            },
        }
    }
}

fn count(numbers: &mut [u32], place: usize) {
    if let Some(number) = numbers.get_mut(place) {
        *number = number.saturating_add(1);
    }
}

#[derive(Drop)]
pub struct Tally {
    calls: [u32; NAMES.len()],
    answers: [u32; ANSWERS.len()],
    // by number
    refused: [u32; NUMBERS],
    mismatches: u32,
}

impl Tally {
    pub fn new() -> Tally {
        Tally {
            calls: [0; NAMES.len()],
            answers: [0; ANSWERS.len()],
            refused: [0; NUMBERS],
            mismatches: 0,
        }
    }

    pub fn add(&mut self, call: &Call, outcome: Outcome) {
        count(&mut self.calls, Name::of(call) as usize);
        match outcome.reply {
            Ok(done) => count(&mut self.answers, Answer::of(done, call) as usize),
            Err(refusal) => count(&mut self.refused, usize::from(refusal.number())),
        }
        if !outcome.right {
            self.add_mismatch();
        }
    }

    pub fn add_mismatch(&mut self) {
        self.mismatches = self.mismatches.saturating_add(1);
    }

    pub fn mismatches(&self) -> u32 {
        self.mismatches
    }
}

fn sum(numbers: &[u32]) -> u32 {
    let mut sum: u32 = 0;
    for number in numbers {
        sum = sum.saturating_add(*number);
    }
    sum
}

// Each number behind its name.
#[derive(Clone, Copy)]
struct Named<'a> {
    names: &'a [&'a str],
    numbers: &'a [u32],
}

impl fmt::Display for Named<'_> {
    fn fmt<W: fmt::Write>(&self, f: &mut fmt::Formatter<W>) -> fmt::Result {
        for (place, (name, number)) in self.names.iter().zip(self.numbers.iter()).enumerate() {
            let gap = if place > 0 { ", " } else { "" };
            write!(f, "{gap}{name} {number}")?;
        }
        Ok(())
    }
}

// The number of each refusal behind it, from the one numbered 1 on.
#[derive(Clone, Copy)]
struct Refused<'a>(&'a [u32]);

impl fmt::Display for Refused<'_> {
    fn fmt<W: fmt::Write>(&self, f: &mut fmt::Formatter<W>) -> fmt::Result {
        for (number, count) in self.0.iter().enumerate().skip(1) {
            write!(f, ", refused {number}: {count}")?;
        }
        Ok(())
    }
}

impl fmt::Display for Tally {
    fn fmt<W: fmt::Write>(&self, f: &mut fmt::Formatter<W>) -> fmt::Result {
        let all = sum(&self.calls);
        let calls = Named {
            names: &NAMES,
            numbers: &self.calls,
        };
        let answers = Named {
            names: &ANSWERS,
            numbers: &self.answers,
        };
        let refused = Refused(&self.refused);
        let mismatches = self.mismatches;
        write!(
            f,
            "{all} calls; {calls}; {answers}{refused}; mismatches {mismatches}"
        )
    }
}
