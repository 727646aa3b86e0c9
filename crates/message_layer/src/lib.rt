//! The message layer of CoAP towards one peer (RFC 7252, section 4).
//!
//! A `Link` takes messages to be sent, one after another: it gives each its message ID, repeats
//! it until it is acknowledged, answered, reset or given up, and then sends the next one. It
//! takes the peer's datagrams, answers them by ACK or RST, and hands up each response once.
//! Moments and random words come from the caller, so it has no clock of its own.
//!
//! The one contract: copies are equal, message IDs are apart, and each datagram goes up once.
//! Each call says the value that it leaves, and `laws` what holds of any list of calls.
//! Whoever speaks CoAP over UDP with a peer stands on this crate.
#![tactic(auto)]

mod bytes;
mod calls;
mod chains;
mod earlier;
mod fault;
mod handing;
mod hearing;
mod kept;
mod laws;
mod link;
mod mids;
mod more;
mod options;
mod over;
mod prepared;
mod remembered;
mod sending;
mod series;
mod state;
mod verdict;

pub use bytes::{Bytes, Unnumbered};
pub use fault::LinkFault;
pub use laws::{
    hands_up_once, heard_sends, hears_as_prepared, mids_apart, run_answers, run_keeps_turn,
    run_transmits, sent_spells, takes_after, tick_sends,
};
pub use link::Link;
pub use options::{Fitness, judge};
pub use prepared::{FirstSending, Hearing, Heeding, Submission, Ticking};
pub use state::{Awaited, Heard, Outstanding, Reply, Up, Waiting};
pub use verdict::{News, Verdict};
