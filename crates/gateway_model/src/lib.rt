//! What a proxy does, act by act: each is one step of its core or of its connections, with what
//! goes out.
//!
//! The definitions stand in `specs/`, to be read in this order: `Unasked`, `Emissions`, `Acts`,
//! `Orders`, `Tellings`, `Waiting`, `Going`, `Told`, `Asking`, `Resting`, `Hearing`, `Closing`,
//! `Continuing`, `Backlog`, and `Rotating`, of the one input without acts.
//! Whoever shows that an input leads to acts in that order has what holds of all such acts, by the
//! laws of this crate.
#![tactic(auto)]

mod input;
mod laws;
mod resting;

pub use exchange_core::{Datagram, RotateFault};
pub use input::{Happening, Input, Output, When};
pub use laws::{
    connections_are_told, connections_ask_what_bytes_spell, datagrams_go_out,
    told_answers_are_meant,
};
pub use resting::{closings_have_reasons, nothing_is_left, told_to_go_on_once, what_comes_shows};
