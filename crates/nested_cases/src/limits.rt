// Nests of 200 atoms, seen and own, and assignments longer than that.
use crate::telling::{examine_into, tell};
use assignments::ATOM_LIMIT;
use assignments::orders::is_part;
use nested::nested::Nested;
use vetoes::mute::Mute;
use vetoes::veto::{Verdict, Veto};

const ALL: [u8; ATOM_LIMIT] = [200; ATOM_LIMIT];

// Each seen atom is atom 200 of the host, and has to be true.
fn all_seen(rt: &HostRuntime) -> anyhow::Result<()> {
    let mut nest = Nested::new(Mute);
    tell(rt, "map 200 times 200, no own atom", nest.shape(&ALL, 0))?;
    for atom in 1..=200 {
        nest.add(&[atom])?;
    }
    println!(rt; "each seen atom as a clause: reach {}", nest.reach())?;
    let mut assignment = [2; 250];
    let mut ticks = [7; 250];
    let unknown = nest.examine(&assignment, &mut ticks)? == Verdict::Silent;
    println!(rt;
        "atom 200 unknown, 250 bytes: silent {unknown}, atom 200 {}",
        ticks[199]
    )?;
    assignment[199] = 1;
    assignment[200] = 1;
    let known = nest.examine(&assignment, &mut ticks)? == Verdict::Speaks;
    println!(rt;
        "atom 200 true, 250 bytes: speaks {known}, atom 199 {}, atom 200 {}, byte 201 {}",
        ticks[198], ticks[199], ticks[200]
    )?;
    examine_into(rt, &mut nest, &[1, 1, 1], &mut [7; 2])?;
    examine_into(rt, &mut nest, &[1, 1, 1], &mut [7; 3])?;
    Ok(())
}

// Each own atom is joined to the next by "this one or not the next", and the last has to be true, so all have to be.
fn all_own(rt: &HostRuntime) -> anyhow::Result<()> {
    let mut nest = Nested::new(Mute);
    tell(rt, "no map, 200 own atoms", nest.shape(&[], 200))?;
    for atom in 1..200 {
        nest.add(&[atom, -1 - atom])?;
    }
    nest.add(&[200])?;
    println!(rt; "a chain of own atoms: reach {}", nest.reach())?;
    examine_into(rt, &mut nest, &[2, 2], &mut [7; 3])?;
    nest.add(&[-1])?;
    println!(rt; "and its first atom false")?;
    examine_into(rt, &mut nest, &[2, 2], &mut [7; 3])?;
    Ok(())
}

pub(crate) fn limits(rt: &HostRuntime) -> anyhow::Result<()> {
    all_seen(rt)?;
    all_own(rt)
}
