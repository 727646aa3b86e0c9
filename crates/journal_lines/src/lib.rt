//! The line of an entry of a journal, as it is printed, written to files and shown.
//!
//! One contract: where payloads are hidden, the line of a datagram has the message with `*` for
//! each byte of its payload; bytes that are no message become as many `*`. `script_runs`,
//! `gateway_window` and the program write their lines by it.
#![tactic(auto)]

mod hiding;
mod lines;
mod unwritten;

pub use hiding::Payloads;
pub use lines::{write_datagram, write_entry};
pub use unwritten::Unwritten;
