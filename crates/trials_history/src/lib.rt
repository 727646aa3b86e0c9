//! Trials of the crates of a run, by their public calls alone: what an ask sends, a journal's entries, what a
//! reply makes known, and the core.
//!
//! What a contract says is proved for every input, and isn't tried here. Tried is what lies outside: datagrams
//! written out by hand after the standards, printed texts, that each call can succeed, and runs up to the
//! limits. Nothing stands on this crate, so the crates below it are proved once.
#![tactic(auto)]

#[cfg(test)]
mod asks;
#[cfg(test)]
mod calls;
#[cfg(test)]
mod carried;
#[cfg(test)]
mod core_runs;
#[cfg(test)]
mod entries;
#[cfg(test)]
mod findings;
#[cfg(test)]
mod giving;
#[cfg(test)]
mod rooms;
#[cfg(test)]
mod sample;
#[cfg(test)]
mod turn_memory;
#[cfg(test)]
mod turns;
