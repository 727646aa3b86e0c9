//! Trials of the crates of formats and of the link, by their public calls alone.
//!
//! What a contract says is proved for every input, and isn't tried here. Tried is what lies
//! outside: the vectors of the standards, printed texts, that each call can succeed, and what a
//! refused allocation leaves. Nothing stands on this crate, so the crates below it are proved once.
#![tactic(auto)]

#[cfg(test)]
mod bank;
#[cfg(test)]
mod codes;
#[cfg(test)]
mod http;
#[cfg(test)]
mod http_cuts;
#[cfg(test)]
mod kinds;
#[cfg(test)]
mod link;
#[cfg(test)]
mod link_memory;
#[cfg(test)]
mod link_prepared;
#[cfg(test)]
mod media;
#[cfg(test)]
mod messages;
#[cfg(test)]
mod responses;
#[cfg(test)]
mod targets;
#[cfg(test)]
mod telling;
