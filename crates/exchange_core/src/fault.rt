//! Why a step is refused.

ghost use Rattle.std.specs.Prelude.{◌≡◌};

use std::alloc::{AllocError, AllocFailed};
use std::fmt::{self, Display, Formatter, Write};

/// Why no connection is opened.
#[derive(Clone, Copy, Debug, PartialEq, Eq)]
pub enum OpenFault {
    /// 256 connections are open.
    Full = 1,
    /// The journal takes nothing more.
    Sealed = 2,
    /// Memory ran out.
    Memory = 3,
}

impl Display for OpenFault {
    ghost use Rattle.std.specs.Prelude.{Some};
    ghost use Rattle.exchange_core.specs.Faults.{opening_text};

    ghost output = { λ fault. Some (opening_text fault) };

    fn fmt<W: Write>(&self, f: &mut Formatter<W>) -> Result<(), fmt::Error> {
        f.write_str(match self {
            OpenFault::Full => "as many connections are open as may be",
            OpenFault::Sealed => "the journal is sealed",
            OpenFault::Memory => "out of memory",
        })
    }
}

impl From<AllocError> for OpenFault {
    ghost use Rattle.exchange_core.specs.declared.fault.OpenFault.TheVariants.{Memory};

    ghost from_gives = { λ _ e. e ≡ Memory };

    fn from(_e: AllocError) -> OpenFault {
        OpenFault::Memory
    }
}

impl<T: Drop> From<AllocFailed<T>> for OpenFault {
    ghost use Rattle.exchange_core.specs.declared.fault.OpenFault.TheVariants.{Memory};

    ghost from_gives = { λ _ e. e ≡ Memory };

    fn from(_e: AllocFailed<T>) -> OpenFault {
        OpenFault::Memory
    }
}

/// Why an ask is refused.
#[derive(Clone, Copy, Debug, PartialEq, Eq)]
pub enum AskFault {
    /// No such connection is open.
    Unknown = 1,
    /// The connection waits for an answer.
    Pending = 2,
    /// The journal takes nothing more.
    Sealed = 3,
    /// Memory ran out.
    Memory = 4,
}

impl Display for AskFault {
    ghost use Rattle.std.specs.Prelude.{Some};
    ghost use Rattle.exchange_core.specs.Faults.{asking_text};

    ghost output = { λ fault. Some (asking_text fault) };

    fn fmt<W: Write>(&self, f: &mut Formatter<W>) -> Result<(), fmt::Error> {
        f.write_str(match self {
            AskFault::Unknown => "no such connection is open",
            AskFault::Pending => "the connection waits for an answer",
            AskFault::Sealed => "the journal is sealed",
            AskFault::Memory => "out of memory",
        })
    }
}

impl<T: Drop> From<AllocFailed<T>> for AskFault {
    ghost use Rattle.exchange_core.specs.declared.fault.AskFault.TheVariants.{Memory};

    ghost from_gives = { λ _ e. e ≡ Memory };

    fn from(_e: AllocFailed<T>) -> AskFault {
        AskFault::Memory
    }
}

impl From<AllocError> for AskFault {
    ghost use Rattle.exchange_core.specs.declared.fault.AskFault.TheVariants.{Memory};

    ghost from_gives = { λ _ e. e ≡ Memory };

    fn from(_e: AllocError) -> AskFault {
        AskFault::Memory
    }
}

/// Why a journal isn't turned over.
#[derive(Clone, Copy, Debug, PartialEq, Eq)]
pub enum RotateFault {
    /// The journal takes entries yet.
    Unsealed = 1,
    /// Its first entries were given out.
    Given = 7,
    /// A connection is open.
    Connected = 2,
    /// An exchange is open, or a message outstanding.
    Exchanging = 3,
    /// Too few numbers of tokens or connections are left.
    Spent = 4,
    /// What is to be copied is more than half of a journal.
    Crowded = 5,
    /// Memory ran out.
    Memory = 6,
}

impl Display for RotateFault {
    ghost use Rattle.std.specs.Prelude.{Some};
    ghost use Rattle.exchange_core.specs.Faults.{rotating_text};

    ghost output = { λ fault. Some (rotating_text fault) };

    fn fmt<W: Write>(&self, f: &mut Formatter<W>) -> Result<(), fmt::Error> {
        f.write_str(match self {
            RotateFault::Unsealed => "the journal isn't sealed",
            RotateFault::Given => "its first entries were given out",
            RotateFault::Connected => "a connection is open",
            RotateFault::Exchanging => "an exchange is open",
            RotateFault::Spent => "too few numbers are left",
            RotateFault::Crowded => "too much is to be copied",
            RotateFault::Memory => "out of memory",
        })
    }
}

impl From<AllocError> for RotateFault {
    ghost use Rattle.exchange_core.specs.declared.fault.RotateFault.TheVariants.{Memory};

    ghost from_gives = { λ _ e. e ≡ Memory };

    fn from(_e: AllocError) -> RotateFault {
        RotateFault::Memory
    }
}
