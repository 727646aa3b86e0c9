//! Trials of the loop, by its public calls alone: over sockets in memory that give any signs in any
//! order.
//!
//! Tried is what no contract says: that each client gets all that it asked for, also where entries
//! leave memory meanwhile, and for what the loop waits. Nothing stands on this crate.
#![tactic(auto)]

#[cfg(test)]
mod callers;
#[cfg(test)]
mod chance;
#[cfg(test)]
mod crowd;
#[cfg(test)]
mod fakes;
#[cfg(test)]
mod flowing;
#[cfg(test)]
mod late;
#[cfg(test)]
mod leaving;
#[cfg(test)]
mod refused;
#[cfg(test)]
mod signs;
