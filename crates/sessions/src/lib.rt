//! Sessions: a thread for each connection, and the loops of the UDP socket and of time.
//!
//! One contract: what a session writes to its client is, in order, what the answers say that it was
//! given. Reading, mapping and rendering are done by the session's own thread, outside the lock of
//! the desk. The crate `gateway_server` stands on it.
#![tactic(auto)]

mod devices;
mod loops;
mod reading;
mod session;
mod writing;

pub use devices::{Gate, Open, Point, Stream};
pub use gateway_desk::{Failed, Inbound, Outbound, Wire};
pub use loops::{tick_loop, udp_loop};
pub use session::{Done, End, Gateway, serve};
