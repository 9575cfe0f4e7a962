// What a session's calls look for, by the shared search: the least assignment beyond a position, and the least that includes
// assumed literals.
#![tactic(auto)]

mod assuming;
pub mod beyond;
mod completing;
mod cores;
pub mod first;
pub mod including;
