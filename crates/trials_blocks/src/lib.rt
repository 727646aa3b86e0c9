//! Trials of `blockwise` by its public calls alone.
//!
//! What a contract says is proved for every input, and isn't tried here. Tried are worked series of
//! pieces as they go over the wire, that each call can succeed, and what a refused allocation
//! leaves. Nothing stands on this crate, so `blockwise` is proved once.
#![tactic(auto)]

#[cfg(test)]
mod downloads;
#[cfg(test)]
mod memory;
#[cfg(test)]
mod responses;
#[cfg(test)]
mod rows;
#[cfg(test)]
mod telling;
#[cfg(test)]
mod uploads;
