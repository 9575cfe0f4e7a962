// Nests on worked cases: what each says at an assignment and which atoms it ticks, what a session over it hands out, and what it
// refuses.
#![tactic(auto)]

mod limits;
mod nests;
mod shaping;
mod stall;
mod telling;

use crate::limits::limits;
use crate::nests::nests;
use crate::shaping::shaping;
use crate::stall::stall;

fn main(rt: HostRuntime) -> anyhow::Result<()> {
    stall(&rt)?;
    nests(&rt)?;
    shaping(&rt)?;
    limits(&rt)
}
