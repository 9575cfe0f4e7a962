// A stall that is described by clauses of its own: it can run its course where atom 1 is true and atom 3 false.
use crate::telling::{ask, examine_all, list, tell};
use nested::nested::Nested;
use refusals::Refusal;
use session::session::Session;
use vetoes::mute::Mute;

// The seen atoms 1 and 2 are the host's atoms 1 and 3, and atom 3 is the nest's own.
fn described() -> Result<Nested<Mute>, Refusal> {
    let mut nest = Nested::new(Mute);
    nest.shape(&[1, 3], 1)?;
    nest.add(&[1])?;
    nest.add(&[-2])?;
    nest.add(&[3])?;
    Ok(nest)
}

fn verdicts(rt: &HostRuntime) -> anyhow::Result<()> {
    let mut nest = described()?;
    println!(rt; "map 1 3, one own atom, clauses 1, -2, 3")?;
    examine_all(
        rt,
        &mut nest,
        &[
            [1, 2, 2],
            [1, 2, 0],
            [1, 0, 0],
            [1, 1, 0],
            [2, 2, 0],
            [0, 2, 0],
            [1, 1, 1],
            [1, 7, 9],
        ],
    )?;
    Ok(())
}

fn settings(rt: &HostRuntime) -> anyhow::Result<()> {
    let mut session = Session::new(described()?);
    println!(rt; "a session over it")?;
    tell(rt, "size 2", session.size(2))?;
    tell(rt, "size 3", session.size(3))?;
    tell(rt, "clause 1 2", session.clause(&[1, 2]))?;
    list(rt, &mut session)?;
    ask(rt, &mut session, &[1, 2, -3])?;
    ask(rt, &mut session, &[2, -2])?;
    ask(rt, &mut session, &[1, 2])?;
    Ok(())
}

pub(crate) fn stall(rt: &HostRuntime) -> anyhow::Result<()> {
    verdicts(rt)?;
    settings(rt)
}
