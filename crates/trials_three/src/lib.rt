//! Trials of a proxy, a network and a device together, by `three_run` alone.
//!
//! What a contract says is proved for every list of turns, and isn't tried here. Tried are
//! datagrams and answers worked out by hand, for a counter, and that the call can succeed.
#![tactic(auto)]

#[cfg(test)]
mod plays;
#[cfg(test)]
mod sample;
#[cfg(test)]
mod stories;
#[cfg(test)]
mod turning;
