// Any list of calls on a fresh session over any veto, and the law that binds what comes back.
#![tactic(auto)]

pub mod play;
pub mod turn;
