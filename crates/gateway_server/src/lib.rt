//! The gateway on sockets of the system: connections over TCP, one UDP socket, a thread for each
//! connection.
//!
//! What goes out is what the sessions write. Each time the journal is nearly full it is turned
//! over, between two requests of each connection. The program `hcproxy` stands on it.
#![tactic(auto)]

mod gateway;
mod ports;
mod roll;
mod shared;
mod taking;
mod turning;

pub use gateway::run;
pub use ports::Ports;
