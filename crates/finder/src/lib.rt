// From a problem to the veto that its bodies describe, and to the session over it.
#![tactic(auto)]

mod contents;
pub mod items;
pub mod lines;
mod nests;
pub mod settings;
pub mod veto;
