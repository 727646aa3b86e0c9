//! What settling a shop tells.

ghost use Rattle.std.specs.Prelude.{◌≡◌};

use std::alloc::AllocError;
use std::error::Error;
use std::fmt;

/// What was settled.
#[derive(Clone, Copy, Debug, PartialEq, Eq)]
pub struct Report {
    /// asks of the journal
    pub asks: u64,
    /// receipts of own asks that the passes hold
    pub answers: u64,
}

/// Why the journal doesn't justify what the passes note. The numbers are those of asks.
#[derive(Clone, Copy, Debug, PartialEq, Eq)]
pub enum SettleFault {
    /// A note that doesn't stand in the journal, or an ask before an answer that was noted before
    /// it.
    Stranger(u32),
    /// Two receipts of one ask are held.
    Repeated(u32),
    /// The journal has other asks than the passes.
    Count,
    /// Memory ran out.
    Memory,
}

impl fmt::Display for SettleFault {
    fn fmt<W: fmt::Write>(&self, f: &mut fmt::Formatter<W>) -> fmt::Result {
        match self {
            SettleFault::Stranger(number) => {
                write!(
                    f,
                    "the journal has no such ask or answer as that of ask {number}"
                )
            }
            SettleFault::Repeated(number) => write!(f, "two answers to ask {number}"),
            SettleFault::Count => f.write_str("the journal has other asks than the sessions"),
            SettleFault::Memory => f.write_str("out of memory"),
        }
    }
}

impl Error for SettleFault {}

impl From<AllocError> for SettleFault {
    ghost use Rattle.gateway_desk.specs.declared.report.SettleFault.TheVariants.{Memory};

    ghost from_gives = { λ _ e. e ≡ Memory };

    fn from(_e: AllocError) -> SettleFault {
        SettleFault::Memory
    }
}
