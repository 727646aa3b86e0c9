//! What the loop has of the system: the connections of clients, the UDP socket towards the devices,
//! and what tells when to look at which; and the gateway that runs on them, in one thread. Those who
//! look at it are served by threads of their own, which ask the loop.
//!
//! Readiness comes from `mio`: once for each change, so each socket is used until it gives no more.
#![tactic(auto)]

mod after;
mod archive;
mod client;
mod devices;
mod figures;
mod glass;
mod host;
mod notes;
mod outlet;
mod ports;
mod server;

pub use archive::{Archive, NoArchive};
pub use gateway_window::{Options, Payloads};
pub use ports::Ports;
pub use server::run;
pub use server_faults::ServeFault;
