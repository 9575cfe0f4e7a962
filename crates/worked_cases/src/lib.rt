// Cases worked out by hand, for the check to ask for: the definitions that the contracts cite give each of them.
#![tactic(auto)]

pub mod cases;
