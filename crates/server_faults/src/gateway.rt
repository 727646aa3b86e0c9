//! Why the gateway doesn't run, or runs no more.

use http_edge::Memory;
use std::alloc::{AllocError, AllocFailed};
use std::error::Error;
use std::net::SocketAddr;
use std::{fmt, io};

/// Why the gateway doesn't run, or runs no more.
#[derive(Clone, Copy, Debug)]
pub enum ServeFault {
    /// No connections can be taken at this address.
    Listen(SocketAddr, io::Error),
    /// No datagrams can be sent from this address.
    Udp(SocketAddr, io::Error),
    /// The gateway can't be looked at at this address.
    Window(SocketAddr, io::Error),
    /// The clock can't be read.
    Clock(io::Error),
    /// A thread can't be started.
    Thread,
    /// It ran until its clock or its UDP socket failed.
    Stopped,
    Memory,
}

impl fmt::Display for ServeFault {
    fn fmt<F: fmt::Write>(&self, f: &mut fmt::Formatter<F>) -> fmt::Result {
        match self {
            ServeFault::Listen(at, error) => write!(f, "listen: {at}: {error}"),
            ServeFault::Udp(at, error) => write!(f, "udp: {at}: {error}"),
            ServeFault::Window(at, error) => write!(f, "--status: {at}: {error}"),
            ServeFault::Clock(error) => write!(f, "the clock can't be read: {error}"),
            ServeFault::Thread => f.write_str("a thread can't be started"),
            ServeFault::Stopped => f.write_str("the clock or the UDP socket failed"),
            ServeFault::Memory => f.write_str("out of memory"),
        }
    }
}

impl Error for ServeFault {}

impl From<AllocError> for ServeFault {
    fn from(_e: AllocError) -> ServeFault {
        ServeFault::Memory
    }
}

impl<T: Drop> From<AllocFailed<T>> for ServeFault {
    fn from(_e: AllocFailed<T>) -> ServeFault {
        ServeFault::Memory
    }
}

impl From<Memory> for ServeFault {
    fn from(_e: Memory) -> ServeFault {
        ServeFault::Memory
    }
}
