//! Trials of sessions of which something fails, by their public calls alone: a read or a write, the
//! wire, or an allocation.
//!
//! Tried is what no contract says: how each session ends then, and that all others go on. Nothing
//! stands on this crate.
#![tactic(auto)]

#[cfg(test)]
mod failing;
#[cfg(test)]
mod refused;
