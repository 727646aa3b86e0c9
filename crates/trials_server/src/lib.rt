//! Trials of both servers, the loop and the threads, by their public calls alone: over sockets of
//! this machine.
//!
//! Tried is what no contract says: that bytes come and go by sockets, and what a window shows.
//! Nothing stands on this crate.
#![tactic(auto)]

#[cfg(test)]
mod looping;
#[cfg(test)]
mod ports;
#[cfg(test)]
mod threads;
#[cfg(test)]
mod together;
#[cfg(test)]
mod window;
