//! Why a call of this crate is refused.

ghost use Rattle.std.specs.Prelude.{◌≡◌};

use http_edge::Memory;
use std::alloc::AllocError;
use std::error::Error;
use std::fmt;

/// Why an input is refused.
#[derive(Clone, Copy, Debug, PartialEq, Eq)]
pub enum WorldFault {
    /// Memory ran out.
    Memory = 1,
    /// More than 1,048,576 bytes of the connection would wait unread.
    Backlog = 2,
}

impl fmt::Display for WorldFault {
    ghost use Rattle.std.specs.Prelude.{Some};
    ghost use Rattle.gateway_world.specs.Faults.{fault_text};

    ghost output = { λ fault. Some (fault_text fault) };

    fn fmt<W: fmt::Write>(&self, f: &mut fmt::Formatter<W>) -> fmt::Result {
        f.write_str(match self {
            WorldFault::Memory => "out of memory",
            WorldFault::Backlog => "too many bytes wait unread",
        })
    }
}

impl Error for WorldFault {}

impl From<Memory> for WorldFault {
    ghost use Rattle.gateway_world.specs.declared.fault.WorldFault.TheVariants as fault;

    ghost from_gives = { λ _ e. e ≡ fault.Memory };

    fn from(_e: Memory) -> WorldFault {
        WorldFault::Memory
    }
}

impl From<AllocError> for WorldFault {
    ghost use Rattle.gateway_world.specs.declared.fault.WorldFault.TheVariants as fault;

    ghost from_gives = { λ _ e. e ≡ fault.Memory };

    fn from(_e: AllocError) -> WorldFault {
        WorldFault::Memory
    }
}
