// An order over a stall that is described by clauses of its own, a nest.
use crate::calls::{ATOMS, ask, clause, next, turns};
use digits::Digits;
use nested::nested::Nested;
use refusals::Refusal;
use runs::play::play;
use runs::turn::{Call, Turn};
use std::alloc::{AllocError, Global};
use std::io;
use vetoes::mute::Mute;
use vetoes::veto::{Verdict, Veto};

// The carriage runs into its stop where the raw output is on and the brake is off, while it stands at its turn. The stall sees the raw
// output and the brake as its atoms 1 and 2; its atom 3, the carriage at its turn, is its own.
pub(crate) fn describe() -> Result<Nested<Mute>, Refusal> {
    let mut stall = Nested::new(Mute);
    stall.shape(&[1, 3], 1)?;
    stall.add(&[1])?;
    stall.add(&[-2])?;
    stall.add(&[3])?;
    Ok(stall)
}

// Whether the setting is ruled out, and the atoms for which it is.
pub(crate) fn tell_stall(
    rt: &HostRuntime,
    stall: &mut Nested<Mute>,
    setting: &[u8; ATOMS],
) -> io::Result<()> {
    let mut ticks = [0; ATOMS];
    print!(rt; "{}: ", Digits(setting))?;
    match stall.examine(setting, &mut ticks)? {
        Verdict::Silent => println!(rt; "not ruled out")?,
        Verdict::Speaks => {
            print!(rt; "ruled out, since the stall can run its course, for atoms")?;
            for (atom, tick) in (1..=ATOMS).zip(ticks.iter()) {
                if *tick == 1 {
                    print!(rt; " {atom}")?;
                }
            }
            println!(rt; "")?;
        }
    }
    Ok(())
}

// All settings that meet the clause, and a question whose answer the stall rules out.
fn order(heap: Global) -> Result<Vec<Turn>, AllocError> {
    let calls = vec![in heap;
        Call::Size(ATOMS),
        clause(heap, &[1, 2])?,
        next(heap)?,
        next(heap)?,
        next(heap)?,
        next(heap)?,
        next(heap)?,
        ask(heap, &[1, 2, -3])?,
    ]?;
    turns(heap, calls)
}

// The order as it was played.
pub(crate) fn play_order(heap: Global, stall: Nested<Mute>) -> Result<Vec<Turn>, AllocError> {
    let mut turns = order(heap)?;
    play(stall, &mut turns);
    Ok(turns)
}
