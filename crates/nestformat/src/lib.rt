// The format of nest files: what a line says, which line is due, which refusal a wrong one gets, and the laws of reading and
// writing.
#![tactic(auto)]

pub mod faults;
pub mod kinds;
pub mod laws;

// Bytes of a text.
pub const TEXT_LIMIT: usize = 60_000;

// Needle maps are numbered from 1 to this limit.
pub const MAP_LIMIT: u16 = 9_999;

// Bodies of a problem.
pub const BODY_LIMIT: usize = 6;

// Rows of a body of clauses, and of any other.
pub const CLAUSE_ROW_LIMIT: usize = 500;

pub const ROW_LIMIT: usize = 400;

// The largest limits that a contents line gives, and the largest loads of a row.
pub const MILLIAMPERE_LIMIT: u32 = 1_000_000;

pub const LINE_LIMIT: u32 = 16;

pub const MILLIAMPERE_LOAD_LIMIT: u32 = 60_000;

pub const LINE_LOAD_LIMIT: u32 = 65_535;
