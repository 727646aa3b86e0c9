//! Random words of the system, read many at once.
//!
//! A word is eight bytes of what was filled, and no byte is in two words. Where the system gives
//! none there is none. What the system fills in isn't known to contracts.
#![tactic(auto)]

mod words;

pub use words::Words;
