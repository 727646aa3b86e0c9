//! Why a text names no resource.

ghost use Rattle.std.specs.Prelude.{◌≡◌};
ghost use Rattle.uri_map.specs.declared.fault.UriFault.TheVariants.{Memory};

use std::alloc::{AllocError, AllocFailed};
use std::error::Error;
use std::fmt;

/// The first fault of a request target, in this order.
#[derive(Clone, Copy, Debug, PartialEq, Eq)]
pub enum UriFault {
    /// The text does not begin with the base.
    OtherBase = 1,
    /// A scheme other than `coap`.
    Scheme = 2,
    /// The authority is none: user information, no host, a bad address, name or port.
    Authority = 3,
    /// An escape that is none, text that is not UTF-8, or a segment `.` or `..`.
    Escape = 4,
    /// A value above 255 bytes, or options above 960 bytes.
    TooLong = 5,
    /// Memory ran out.
    Memory = 6,
}

impl fmt::Display for UriFault {
    fn fmt<W: fmt::Write>(&self, f: &mut fmt::Formatter<W>) -> fmt::Result {
        f.write_str(match self {
            UriFault::OtherBase => "the target is not below the base",
            UriFault::Scheme => "the scheme is not coap",
            UriFault::Authority => "the host or the port is malformed",
            UriFault::Escape => "the path or the query is malformed",
            UriFault::TooLong => "the path or the query is too long",
            UriFault::Memory => "out of memory",
        })
    }
}

impl Error for UriFault {}

impl From<AllocError> for UriFault {
    ghost from_gives = { λ _ e. e ≡ Memory };

    fn from(_e: AllocError) -> UriFault {
        UriFault::Memory
    }
}

impl<T: Drop> From<AllocFailed<T>> for UriFault {
    ghost from_gives = { λ _ e. e ≡ Memory };

    fn from(_e: AllocFailed<T>) -> UriFault {
        UriFault::Memory
    }
}
