//! Trials of `proxy_settings` by its public calls alone.
//!
//! What the contract says is proved for every text, and isn't tried here. Tried is what lies
//! outside: that good texts are taken, what is printed of a fault, and what a refused allocation
//! leaves. Nothing stands on this crate, so `proxy_settings` is proved once.
#![tactic(auto)]

#[cfg(test)]
mod bad;
#[cfg(test)]
mod examples;
#[cfg(test)]
mod files;
#[cfg(test)]
mod good;
#[cfg(test)]
mod memory;
#[cfg(test)]
mod telling;
