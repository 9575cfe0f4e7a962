// The veto against signal loops: it speaks where the arcs with true atoms contain a closed chain.
#![tactic(auto)]

pub mod arc;
pub mod cycle;
mod walk;
