//! What holds of a proxy, a network that loses, repeats and delays, and a device, whatever happens,
//! as contracts of functions that do nothing.
//!
//! It is said of the proxy's history and of the device's calls, and of how late the network
//! delivers. Whoever shows that both are connected so has what follows, by the laws of this crate.
//! The definitions stand in `specs/`, to be read in this order: `Lateness`, `Networks`, `Arriving`,
//! `Executions`, `Posts`, `Reads`, `Orders`.
#![tactic(auto)]

mod laws;

pub use laws::{
    arrives_within, asked_once, forgotten_before, messages_once, posts_once, replies_show,
    sent_within, wholes_show, writes_show,
};

/// How late a copy goes out at most after it is due, in milliseconds.
pub const LATEST_COPY: u64 = 1000;

/// How long after its first sending a message goes out at most: 15 times the longest first timeout,
/// and four times what a copy may be late.
pub const LONGEST_SENDING: u64 = 49_000;

/// How long a datagram is on its way at most, in milliseconds (MAX_LATENCY, RFC 7252 section
/// 4.8.2).
pub const LONGEST_WAY: u64 = 100_000;
