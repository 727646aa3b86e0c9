//! HTTP/1.1 requests, one by one, from the bytes of a connection; and the bytes of answers
//! (RFC 9112).
//!
//! The contract: each item that an `Edge` gives is the next one that the bytes fed to it spell,
//! however they were cut (`however_cut`, `none_held_back`). What bytes spell is said by `Reads` of
//! `specs/Reading.antt`, which knows nothing of pieces. The first fault in the order of
//! `specs/Framing.antt` is the one that is told, and after it nothing more is read. An open edge
//! that gives nothing has room for more bytes, so no connection stops at a full one.
//!
//! The mapping of requests stands on it, and so does the gateway that feeds connections.
#![tactic(auto)]

mod answer;
mod begun;
mod body;
mod edge;
mod field_map;
mod framing;
mod head;
mod laws;
mod lists;
mod memory;
mod request;
mod unread;

pub use answer::{Body, Field, HttpAnswer, answer_bytes};
pub use edge::Edge;
pub use laws::{
    however_cut, none_held_back, reading_goes_on, reading_is_one, unread_is_one, waits_only,
};
pub use lists::has_other;
pub use memory::Memory;
pub use request::{BadKind, Incoming, Request, Version};
