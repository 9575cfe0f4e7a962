// What the clauses of a book say at a partial assignment: broken, down to one value, or neither; and why.
#![tactic(auto)]

pub mod explaining;
pub mod literal;
pub mod scanning;
pub mod wanted;
