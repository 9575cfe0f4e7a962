// Nests: a veto described by clauses of its own over a veto below, and the sets of assignments that nests leave.
//
// A nest sees some atoms of its host and has atoms of its own. It speaks where the own atoms can be given values so that
// its clauses are met and the veto below is silent: a solver inside the solver.
#![tactic(auto)]

mod completing;
mod explaining;
mod mapping;
pub mod nested;
pub mod sets;
pub mod shape;
