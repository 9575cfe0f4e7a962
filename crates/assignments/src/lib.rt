// Assignments of values to atoms, and literals over them.
//
// An assignment is a slice of bytes, one for each atom from atom 1 on: 0 is false, 1 is true, and any other byte is
// unknown. Atoms past its end are unknown.
#![tactic(auto)]

pub mod literals;
pub mod orders;
pub mod values;

// Atoms are numbered from 1 to this limit.
pub const ATOM_LIMIT: usize = 200;

// An atom's number as tables store it.
pub type AtomNumber = u8;

// k says that atom k is true, -k that it is false.
pub type Literal = i16;
