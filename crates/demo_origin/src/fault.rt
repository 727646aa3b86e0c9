//! Why a call or a handler gives nothing.

ghost use Rattle.std.specs.Prelude.{◌≡◌};

use coap_codec::CodecFault;
use std::alloc::{AllocError, AllocFailed};
use std::fmt::{self, Display, Formatter, Write};

/// An allocation failed, and nothing was done.
#[derive(Clone, Copy, PartialEq, Eq, Debug)]
pub enum Memory {
    Memory,
}

impl From<AllocError> for Memory {
    fn from(_: AllocError) -> Memory {
        Memory::Memory
    }
}

impl<T: Drop> From<AllocFailed<T>> for Memory {
    fn from(_: AllocFailed<T>) -> Memory {
        Memory::Memory
    }
}

impl Display for Memory {
    fn fmt<W: Write>(&self, f: &mut Formatter<W>) -> fmt::Result {
        f.write_str("out of memory")
    }
}

/// Why a handler gave no state.
#[derive(Clone, Copy, Debug)]
pub enum Refused {
    /// It takes no such request: the device answers 5.00, and the state stays.
    Content,
    /// An allocation failed.
    Memory,
}

impl From<AllocError> for Refused {
    ghost use Rattle.demo_origin.specs.declared.fault.Refused.TheVariants.{Memory};

    ghost from_gives = { λ _ e. e ≡ Memory };

    fn from(_: AllocError) -> Refused {
        Refused::Memory
    }
}

impl<T: Drop> From<AllocFailed<T>> for Refused {
    ghost use Rattle.demo_origin.specs.declared.fault.Refused.TheVariants.{Memory};

    ghost from_gives = { λ _ e. e ≡ Memory };

    fn from(_: AllocFailed<T>) -> Refused {
        Refused::Memory
    }
}

/// What of a codec's faults is left where the message may be written.
pub(crate) fn out_of_memory(_: CodecFault) -> Memory {
    Memory::Memory
}
