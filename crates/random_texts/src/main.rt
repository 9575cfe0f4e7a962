// Random problems, written by a plain writer, and damaged texts of them: the library's answer, its problem and what it writes are
// compared with a plain reader. The program names each text that differs, and then ends with an error.
#![tactic(auto)]

mod damage;
mod drawing;
mod model;
mod numbers;
mod reading;
mod rows;
mod tally;
mod trial;

use crate::damage::{DAMAGES, Damage};
use crate::drawing::{Drawing, Mix};
use crate::tally::Tally;
use crate::trial::Trial;
use anyhow::anyhow;
use std::alloc::{AllocError, Global};

// Drawn for each kind of damage, and once to be read as they are.
const TEXTS: u64 = 1000;

// A text is damaged so often, and read after each damage.
const ROUNDS: u32 = 3;

fn draw(heap: Global, drawing: &mut Drawing, number: u64) -> Result<String, AllocError> {
    let problem = drawing.problem(Mix::of_text(number))?;
    format!(in heap; "{problem}")
}

// Answers whether none differed.
fn read_drawn(rt: &HostRuntime, trial: &mut Trial) -> anyhow::Result<bool> {
    let heap = rt.alloc();
    let mut tally = Tally::new();
    for number in 0..TEXTS {
        let mut drawing = Drawing::new(heap, number.wrapping_mul(8).wrapping_add(8));
        let text = draw(heap, &mut drawing, number)?;
        let outcome = trial.read_drawn(text.as_bytes())?;
        tally.add(outcome);
        if !outcome.right {
            println!(rt; "drawn: text {number} differs")?;
        }
    }
    println!(rt; "drawn: {TEXTS} texts, {tally}")?;
    Ok(tally.mismatches() == 0)
}

fn read_damaged(rt: &HostRuntime, trial: &mut Trial, damage: Damage) -> anyhow::Result<bool> {
    let heap = rt.alloc();
    let mut tally = Tally::new();
    for number in 0..TEXTS {
        let seed = number.wrapping_mul(8).wrapping_add(damage as u64);
        let mut drawing = Drawing::new(heap, seed.wrapping_add(1));
        let drawn = draw(heap, &mut drawing, number)?;
        let mut text = drawn.into_bytes();
        for round in 0..ROUNDS {
            text = damage.done_to(heap, text.as_slice(), &mut drawing.random)?;
            let outcome = trial.read(text.as_slice())?;
            tally.add(outcome);
            if !outcome.right {
                println!(rt; "{damage}: text {number}, round {round} differs")?;
            }
        }
    }
    println!(rt; "{damage}: {TEXTS} texts, {tally}")?;
    Ok(tally.mismatches() == 0)
}

fn read_all(rt: &HostRuntime) -> anyhow::Result<()> {
    let mut trial = Trial::new(rt.alloc())?;
    let mut right = read_drawn(rt, &mut trial)?;
    for damage in DAMAGES {
        right &= read_damaged(rt, &mut trial, damage)?;
    }
    if !right {
        return Err(anyhow!("the library and the plain reader differ"));
    }
    Ok(())
}

fn main(rt: HostRuntime) -> anyhow::Result<()> {
    read_all(&rt)
}
