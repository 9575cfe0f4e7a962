// A turn that was played, told with its reply.
use assignments::Literal;
use digits::Digits;
use runs::turn::{Call, Done, Turn};
use std::{fmt, io};

#[derive(Clone, Copy)]
struct Literals<'a>(&'a [Literal]);

impl fmt::Display for Literals<'_> {
    fn fmt<W: fmt::Write>(&self, f: &mut fmt::Formatter<W>) -> fmt::Result {
        for literal in self.0 {
            write!(f, " {literal}")?;
        }
        Ok(())
    }
}

fn tell_call(rt: &HostRuntime, call: &Call) -> io::Result<()> {
    match call {
        Call::Size(atoms) => print!(rt; "size {atoms}"),
        Call::Clause(literals) => print!(rt; "clause{}", Literals(literals)),
        Call::Open => print!(rt; "open"),
        Call::Close => print!(rt; "close"),
        Call::Rewind => print!(rt; "rewind"),
        Call::Next(_) => print!(rt; "next"),
        Call::Ask(assumed, _, _) => print!(rt; "ask{}", Literals(assumed)),
    }
}

// The assignment that stands in a call's buffer.
fn written(call: &Call) -> Digits<'_> {
    match call {
        Call::Next(out) | Call::Ask(_, out, _) => Digits(out),
        _ => Digits(&[]),
    }
}

// Each assumption of the core, which is ticked by 1.
fn tell_core(rt: &HostRuntime, call: &Call) -> io::Result<()> {
    print!(rt; ": none, since these clash:")?;
    if let Call::Ask(assumed, _, ticks) = call {
        for (literal, tick) in assumed.iter().zip(ticks.iter()) {
            if *tick == 1 {
                print!(rt; " {literal}")?;
            }
        }
    }
    println!(rt; "")
}

pub(crate) fn tell(rt: &HostRuntime, turn: &Turn) -> io::Result<()> {
    tell_call(rt, &turn.call)?;
    match turn.reply {
        Ok(Done::Accepted) => println!(rt; ": accepted"),
        Ok(Done::Handed) => println!(rt; ": {} may be burned", written(&turn.call)),
        Ok(Done::NoMore) => println!(rt; ": no more"),
        Ok(Done::Chosen) => println!(rt; ": {}", written(&turn.call)),
        Ok(Done::Clash) => tell_core(rt, &turn.call),
        Err(refusal) => println!(rt; ": refused {}, {refusal}", refusal.number()),
    }
}
