// Vetoes: what rules assignments out, by its meaning.
//
// A veto is what the literature calls a propagator that only detects conflicts and explains them. Its meaning is a reach
// and the assignments at which it speaks. Code above a veto knows its meaning and nothing else of it.
#![tactic(auto)]

pub mod counted;
pub mod lent;
pub mod marks;
pub mod mute;
pub mod pair;
pub mod reason;
pub mod veto;
