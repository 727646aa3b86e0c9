//! Why a watch is refused.

ghost use Rattle.std.specs.Prelude.{◌≡◌};
ghost use Rattle.observe_share.specs.declared.fault.WatchFault.TheVariants.{Memory};

use std::alloc::{AllocError, AllocFailed};
use std::error::Error;
use std::fmt;
use std::fmt::{Display, Formatter, Write};

/// Why a watch is refused: the first of these that holds.
#[derive(Clone, Copy, Debug, PartialEq, Eq)]
pub enum WatchFault {
    /// 64 stand.
    Full = 1,
    /// Memory ran out.
    Memory = 2,
}

impl Display for WatchFault {
    fn fmt<W: Write>(&self, f: &mut Formatter<W>) -> fmt::Result {
        f.write_str(match self {
            WatchFault::Full => "64 resources are watched",
            WatchFault::Memory => "out of memory",
        })
    }
}

impl Error for WatchFault {}

impl From<AllocError> for WatchFault {
    ghost from_gives = { λ _ e. e ≡ Memory };

    fn from(_e: AllocError) -> WatchFault {
        WatchFault::Memory
    }
}

impl<T: Drop> From<AllocFailed<T>> for WatchFault {
    ghost from_gives = { λ _ e. e ≡ Memory };

    fn from(_e: AllocFailed<T>) -> WatchFault {
        WatchFault::Memory
    }
}
