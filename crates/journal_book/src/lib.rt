//! What happened, in order: the entries of a proxy's journal.
//!
//! One contract: a journal is a list of entries to which one is added at its end, and never refused
//! where room was made for it. Contracts see plain data, in which no type of a program stands. The
//! laws of histories and the core stand on it.
#![tactic(auto)]

mod entry;
mod journal;
mod kept;
mod numbers;
mod past;
mod segments;
mod size;

pub use entry::{Done, Entry, Event, Grounds, Mark};
pub use journal::Journal;
pub use numbers::Numbers;
