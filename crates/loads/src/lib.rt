// The veto against too much load: it speaks where the joined loads of the rows with true atoms are over the limit.
#![tactic(auto)]

pub mod kind;
pub mod load;
pub mod row;
pub mod total;
