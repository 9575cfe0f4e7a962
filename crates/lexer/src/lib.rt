// Lines, tokens and numbers of a text.
#![tactic(auto)]

pub mod bytes;
pub mod numbers;
pub mod reader;
mod scans;
