// The search that sessions and nested solvers share: the least completion of an assignment that meets every clause of a
// book and at which a veto is silent.
#![tactic(auto)]

pub mod find;
mod masks;
