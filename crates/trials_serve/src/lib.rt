//! Trials of the desk and its sessions, by their public calls alone: over a stream, a wire, a clock
//! and a gate in memory.
//!
//! Tried is what no contract says: that sessions run at once, that who waits is woken, how each
//! session ends, and that one journal settles what they were given. Nothing stands on this crate.
#![tactic(auto)]

#[cfg(test)]
mod settling;
#[cfg(test)]
mod threads;
#[cfg(test)]
mod turning;
