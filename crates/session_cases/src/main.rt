// Sessions on worked cases: each call with its answer, and every byte of its buffers.
#![tactic(auto)]

mod asking;
mod calls;
mod listing;
mod refusing;

use crate::asking::asking;
use crate::listing::listing;
use crate::refusing::refusing;
use std::io;

fn main(rt: HostRuntime) -> io::Result<()> {
    refusing(&rt)?;
    listing(&rt)?;
    asking(&rt)
}
