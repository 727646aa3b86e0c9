//! Why a line isn't written.

use std::alloc::AllocError;
use std::io;

/// Why a line isn't written.
#[derive(Clone, Copy, Debug)]
pub enum Unwritten {
    /// Memory ran out.
    Memory,
    /// What it is written to failed.
    Device,
}

impl From<AllocError> for Unwritten {
    fn from(_e: AllocError) -> Self {
        Unwritten::Memory
    }
}

/// A failed write is a failed device.
pub(crate) fn written(outcome: io::Result<()>) -> Result<(), Unwritten> {
    outcome.map_err(|_| Unwritten::Device)
}
