//! Trials of `resp_cache` by its public calls alone.
//!
//! What a contract says is proved for every input, and isn't tried here. Tried are moments and
//! orders worked out by hand, that each call can succeed, and what a refused allocation leaves.
//! Nothing stands on this crate, so the crates below it are proved once.
#![tactic(auto)]

#[cfg(test)]
mod calls;
#[cfg(test)]
mod eviction;
#[cfg(test)]
mod freshness;
#[cfg(test)]
mod memory;
#[cfg(test)]
mod samples;
#[cfg(test)]
mod telling;
