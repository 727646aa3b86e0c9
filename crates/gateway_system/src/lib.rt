//! What a session has of the system: the connection of a client, the UDP socket towards the
//! devices, and the clock.
//!
//! One contract: each keeps what sessions are promised of it. A failed read or write is counted and
//! told, and what is received fits the buffer. The gateway's threads stand on it.
#![tactic(auto)]

mod client;
mod clock;
mod socket;

pub use client::{Client, Line, moment};
pub use clock::SystemClock;
pub use socket::DeviceSocket;
