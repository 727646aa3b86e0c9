//! Why a server doesn't run, or runs no more: the gateway, or the demonstration device.
//!
//! No contract: what failed, and its text. The servers answer with these, and `command_line` tells
//! them, without standing on the servers.
#![tactic(auto)]

mod device;
mod gateway;

pub use device::DeviceFault;
pub use gateway::ServeFault;
