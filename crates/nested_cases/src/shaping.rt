// What shape and add refuse, at its edge and in its order, and what they leave then.
use crate::telling::{examine_all, examine_into, tell};
use cycles::arc::Arc;
use cycles::cycle::Cycle;
use nested::nested::Nested;
use vetoes::mute::Mute;
use vetoes::veto::Veto;

// A nest without a shape reaches no atom and says nothing; it is refused only where the ticks are short.
fn unshaped(rt: &HostRuntime) -> anyhow::Result<()> {
    let mut nest = Nested::new(Mute);
    println!(rt; "a nest without a shape")?;
    examine_all(rt, &mut nest, &[[0, 0], [1, 1], [2, 2]])?;
    examine_into(rt, &mut nest, &[1, 1], &mut [7; 1])?;
    tell(rt, "clause 1", nest.add(&[1]))?;
    tell(rt, "clause 0", nest.add(&[0]))?;
    tell(rt, "no atom", nest.shape(&[], 0))?;
    tell(rt, "clause 1", nest.add(&[1]))?;
    tell(rt, "clause", nest.add(&[]))?;
    Ok(())
}

// 3, 4 and 5, over a veto that reaches three atoms.
fn shapes(rt: &HostRuntime) -> anyhow::Result<()> {
    let arcs = [Arc {
        atom: 3,
        from: 1,
        to: 1,
    }];
    let mut nest = Nested::new(Cycle::new(&arcs[..]));
    println!(rt; "shapes over a veto of reach 3")?;
    tell(rt, "map 200 times 1, no own atom", nest.shape(&[1; 200], 0))?;
    tell(rt, "map 201 times 1, no own atom", nest.shape(&[1; 201], 0))?;
    tell(
        rt,
        "map 200 times 1, one own atom",
        nest.shape(&[1; 200], 1),
    )?;
    tell(rt, "no map, 200 own atoms", nest.shape(&[], 200))?;
    tell(rt, "no map, 201 own atoms", nest.shape(&[], 201))?;
    tell(
        rt,
        "map 1, 18446744073709551615 own atoms",
        nest.shape(&[1], usize::MAX),
    )?;
    tell(rt, "map 1, one own atom", nest.shape(&[1], 1))?;
    tell(rt, "map 1, two own atoms", nest.shape(&[1], 2))?;
    tell(rt, "map 1 2 3", nest.shape(&[1, 2, 3], 0))?;
    tell(rt, "map 1 2 0", nest.shape(&[1, 2, 0], 0))?;
    tell(rt, "map 1 2 200", nest.shape(&[1, 2, 200], 0))?;
    tell(rt, "map 1 2 201", nest.shape(&[1, 2, 201], 0))?;
    tell(rt, "map 255 2 1", nest.shape(&[255, 2, 1], 0))?;
    tell(rt, "map 0, no own atom", nest.shape(&[0], 0))?;
    tell(rt, "map 201 times 0, no own atom", nest.shape(&[0; 201], 0))?;
    println!(rt; "reach {}", nest.reach())?;
    Ok(())
}

// A refused shape keeps map and clauses, an accepted one drops the clauses.
fn kept(rt: &HostRuntime) -> anyhow::Result<()> {
    let mut nest = Nested::new(Mute);
    nest.shape(&[2], 0)?;
    nest.add(&[-1])?;
    println!(rt; "map 2, clause -1")?;
    examine_all(rt, &mut nest, &[[1, 0], [0, 1]])?;
    tell(rt, "map 1, 200 own atoms", nest.shape(&[1], 200))?;
    tell(rt, "map 0", nest.shape(&[0], 0))?;
    tell(rt, "clause 2", nest.add(&[2]))?;
    examine_all(rt, &mut nest, &[[1, 0], [0, 1]])?;
    tell(rt, "map 1", nest.shape(&[1], 0))?;
    examine_all(rt, &mut nest, &[[1, 0], [0, 1]])?;
    Ok(())
}

// 5, 6 and 7, as a clause book over seen and own atoms.
fn clauses(rt: &HostRuntime) -> anyhow::Result<()> {
    let mut nest = Nested::new(Mute);
    nest.shape(&[9, 9], 1)?;
    println!(rt; "clauses over two seen atoms and one own atom")?;
    for literal in [0, 3, -3, 4, -4, 9] {
        tell(rt, format_args!("clause {literal}"), nest.add(&[literal]))?;
    }
    for _ in 0..398 {
        nest.add(&[1, -1])?;
    }
    tell(rt, "clause 1", nest.add(&[1]))?;
    tell(rt, "clause 4", nest.add(&[4]))?;
    nest.shape(&[9, 9], 1)?;
    tell(rt, "2000 literals", nest.add(&[1; 2000]))?;
    tell(rt, "clause 1", nest.add(&[1]))?;
    tell(rt, "clause 4", nest.add(&[4]))?;
    tell(rt, "clause", nest.add(&[]))?;
    Ok(())
}

pub(crate) fn shaping(rt: &HostRuntime) -> anyhow::Result<()> {
    unshaped(rt)?;
    shapes(rt)?;
    kept(rt)?;
    clauses(rt)
}
