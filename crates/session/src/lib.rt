// A session over one veto, and its seven calls.
#![tactic(auto)]

pub mod handing;
mod seek;
pub mod session;
pub mod table;
