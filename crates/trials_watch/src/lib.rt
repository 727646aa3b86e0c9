//! Trials of `cache_key` and `observe_share` by their public calls alone.
//!
//! What a contract says is proved for every input, and isn't tried here. Tried are numbers of
//! notifications worked out by hand, the printed texts, that each call can succeed, and what a
//! refused allocation leaves. Nothing stands on this crate, so the crates below it are proved once.
#![tactic(auto)]

#[cfg(test)]
mod keys;
#[cfg(test)]
mod limits;
#[cfg(test)]
mod memory;
#[cfg(test)]
mod notifications;
#[cfg(test)]
mod numbers;
#[cfg(test)]
mod samples;
#[cfg(test)]
mod telling;
#[cfg(test)]
mod times;
