// What each line of a nest file says: its sort, its tokens, and the numbers of its row as what they stand for.
#![tactic(auto)]

pub mod due;
pub mod entries;
pub mod headings;
pub mod numbers;
pub mod openings;
pub mod ranges;
pub mod rows;
mod tokens;
