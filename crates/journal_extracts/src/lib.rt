//! Entries of a journal, copied for a viewer while more are added: some that follow one another, or
//! those that tell of one request.
//!
//! One contract: what is copied are the journal's entries under their numbers, 256 at most. Those
//! that tell of a request are found in rounds of 4,096 entries each. `gateway_desk` makes each copy
//! and each round under its lock, and the loop between two turns, so a viewer holds up the gateway
//! no longer than that.
#![tactic(auto)]

mod extract;
mod search;

pub use extract::{Extract, MOST_COPIED, Numbered, extract_of, numbered_of};
pub use search::{MOST_GOES, Search};
