//! The demonstration device on a socket of the system: one UDP socket, and one thread.
//!
//! One contract: turn by turn the device hears what came by its wire, once, and looks at its
//! timers, at the moment that its clock told; and what goes out by the wire, to whom, is what it
//! gives to be sent. Its resources are those that the rows of the settings say: a cell or a counter
//! each. The program `hcproxy` stands on it.
#![tactic(auto)]

mod clock;
mod kinds;
mod rows;
mod server;
mod turns;
mod wire;

pub use clock::{Clock, SystemClock};
pub use kinds::{Kinds, answer};
pub use rows::resource_of;
pub use server::{run, serve_rows};
pub use server_faults::DeviceFault;
pub use turns::{Served, Turned, serve, turn};
pub use wire::{DevicePort, Failed, Wire};
