//! Why a journal isn't drawn.

use std::alloc::{AllocError, AllocFailed};
use std::error::Error;
use std::fmt;

/// Why a line can't be a line of a journal, or not at that place.
#[derive(Clone, Copy, Debug, PartialEq, Eq)]
pub enum LineFault {
    /// It is neither an output nor an entry.
    Form,
    /// A moment or another number isn't decimal, or too large.
    Number,
    /// An address with its port isn't one.
    Peer,
    /// Bytes aren't pairs of hexadecimal digits in lower case.
    Hex,
    /// An output after the entries, a copy after another entry, or an entry that has not the next
    /// number.
    Order,
    /// No connection of that number was opened, or its number isn't the next one.
    Connection,
    /// An answer names an entry that doesn't stand before it.
    Ground,
    Memory,
}

impl fmt::Display for LineFault {
    fn fmt<W: fmt::Write>(&self, f: &mut fmt::Formatter<W>) -> fmt::Result {
        f.write_str(match self {
            LineFault::Form => "it is no line that replay --journal prints",
            LineFault::Number => "a number isn't decimal, or too large",
            LineFault::Peer => "a peer is an address with a port, as 192.0.2.1:5683",
            LineFault::Hex => "bytes are pairs of the digits 0 to 9 and a to f",
            LineFault::Order =>
                "outputs come first, then copies, then other entries, numbered from 0",
            LineFault::Connection =>
                "connections are opened before they are used, and numbered one by one",
            LineFault::Ground => "an answer names entries that stand before it",
            LineFault::Memory => "out of memory",
        })
    }
}

impl From<AllocError> for LineFault {
    fn from(_e: AllocError) -> LineFault {
        LineFault::Memory
    }
}

impl<T: Drop> From<AllocFailed<T>> for LineFault {
    fn from(_e: AllocFailed<T>) -> LineFault {
        LineFault::Memory
    }
}

/// Why a journal isn't drawn.
#[derive(Clone, Copy, Debug, PartialEq, Eq)]
pub enum PictureFault {
    /// The line of that number isn't UTF-8.
    NotText(u64),
    /// The line of that number, from 1, is refused.
    Line(u64, LineFault),
    /// The last line, of that number, has no end.
    Unended(u64),
    Memory,
}

impl fmt::Display for PictureFault {
    fn fmt<W: fmt::Write>(&self, f: &mut fmt::Formatter<W>) -> fmt::Result {
        match self {
            PictureFault::NotText(number) => write!(f, "line {number} refused: it isn't UTF-8"),
            PictureFault::Line(number, fault) => write!(f, "line {number} refused: {fault}"),
            PictureFault::Unended(number) => write!(f, "line {number} refused: it has no line end"),
            PictureFault::Memory => f.write_str("out of memory"),
        }
    }
}

impl Error for PictureFault {}

impl From<AllocError> for PictureFault {
    fn from(_e: AllocError) -> PictureFault {
        PictureFault::Memory
    }
}

impl<T: Drop> From<AllocFailed<T>> for PictureFault {
    fn from(_e: AllocFailed<T>) -> PictureFault {
        PictureFault::Memory
    }
}
