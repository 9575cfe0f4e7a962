// The assignments that a session admits, as lines of text that come one at a time.
#![tactic(auto)]

pub mod law;
pub mod line;
pub mod listing;
mod literals;
mod progress;

// So many assignments are listed at most.
pub const LISTING_LIMIT: usize = 100;
