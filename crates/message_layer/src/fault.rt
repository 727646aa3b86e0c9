//! Why a link refuses.

ghost use Rattle.std.specs.Prelude.{◌≡◌};
ghost use Rattle.message_layer.specs.declared.fault.LinkFault.TheVariants.{Memory};

use std::alloc::{AllocError, AllocFailed};
use std::fmt;
use std::fmt::{Display, Formatter, Write};

/// Why a link refuses: the first of these that holds.
#[derive(Clone, Copy, Debug, PartialEq, Eq)]
pub enum LinkFault {
    /// 64 messages wait.
    Queue = 1,
    /// 32,768 message IDs are in use.
    Numbers = 2,
    /// Memory ran out.
    Memory = 3,
}

impl Display for LinkFault {
    fn fmt<W: Write>(&self, f: &mut Formatter<W>) -> fmt::Result {
        let text = match self {
            LinkFault::Queue => "64 messages wait for this peer",
            LinkFault::Numbers => "32,768 message IDs of this peer are in use",
            LinkFault::Memory => "out of memory",
        };
        f.write_str(text)
    }
}

impl From<AllocError> for LinkFault {
    ghost from_gives = { λ _ e. e ≡ Memory };

    fn from(_e: AllocError) -> LinkFault {
        LinkFault::Memory
    }
}

impl<T: Drop> From<AllocFailed<T>> for LinkFault {
    ghost from_gives = { λ _ e. e ≡ Memory };

    fn from(_e: AllocFailed<T>) -> LinkFault {
        LinkFault::Memory
    }
}
