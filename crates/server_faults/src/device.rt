//! Why the device doesn't run, or runs no more.

use std::alloc::{AllocError, AllocFailed};
use std::error::Error;
use std::net::SocketAddr;
use std::{fmt, io};

/// Why the device doesn't run, or runs no more.
#[derive(Clone, Copy, Debug)]
pub enum DeviceFault {
    /// No messages can be taken at this address.
    Listen(SocketAddr, io::Error),
    /// The clock can't be read.
    Clock(io::Error),
    /// It ran until its clock or its UDP socket failed.
    Stopped,
    Memory,
}

impl fmt::Display for DeviceFault {
    fn fmt<F: fmt::Write>(&self, f: &mut fmt::Formatter<F>) -> fmt::Result {
        match self {
            DeviceFault::Listen(at, error) => write!(f, "listen: {at}: {error}"),
            DeviceFault::Clock(error) => write!(f, "the clock can't be read: {error}"),
            DeviceFault::Stopped => f.write_str("the clock or the UDP socket failed"),
            DeviceFault::Memory => f.write_str("out of memory"),
        }
    }
}

impl Error for DeviceFault {}

impl From<AllocError> for DeviceFault {
    fn from(_e: AllocError) -> DeviceFault {
        DeviceFault::Memory
    }
}

impl<T: Drop> From<AllocFailed<T>> for DeviceFault {
    fn from(_e: AllocFailed<T>) -> DeviceFault {
        DeviceFault::Memory
    }
}
