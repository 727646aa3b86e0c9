//! Why bytes are no message.

ghost use Rattle.std.specs.Prelude.{◌≡◌};
ghost use Rattle.coap_codec.specs.declared.fault.CodecFault.TheVariants.{Memory};

use std::alloc::{AllocError, AllocFailed};
use std::error::Error;
use std::fmt;

/// Why bytes are no message: the first fault in reading order (RFC 7252, section 3).
///
/// `Memory` is no fault of the bytes. It is answered only where they have none.
#[derive(Clone, Copy, Debug, PartialEq, Eq)]
pub enum CodecFault {
    /// Fewer than the four bytes of a header.
    Short = 1,
    /// A version other than 1.
    Version = 2,
    /// A token length above 8, which is reserved.
    TokenLength = 3,
    /// A nibble of 15 in the first byte of an option, which is reserved.
    Reserved = 4,
    /// The token or an option passes the end.
    Truncated = 5,
    /// A payload marker with nothing after it.
    EmptyPayload = 6,
    /// The code 0.00 with a token, or with bytes after the header (section 4.1).
    EmptyExtra = 7,
    /// An option number above 65,535.
    Number = 8,
    /// Memory ran out.
    Memory = 9,
}

impl fmt::Display for CodecFault {
    fn fmt<W: fmt::Write>(&self, f: &mut fmt::Formatter<W>) -> fmt::Result {
        f.write_str(match self {
            CodecFault::Short => "fewer than four bytes",
            CodecFault::Version => "a version other than 1",
            CodecFault::TokenLength => "a token length above 8",
            CodecFault::Reserved => "an option with a reserved nibble",
            CodecFault::Truncated => "a token or an option that passes the end",
            CodecFault::EmptyPayload => "a payload marker without a payload",
            CodecFault::EmptyExtra => "an empty message with more than its header",
            CodecFault::Number => "an option number above 65535",
            CodecFault::Memory => "out of memory",
        })
    }
}

impl Error for CodecFault {}

impl From<AllocError> for CodecFault {
    ghost from_gives = { λ _ e. e ≡ Memory };

    fn from(_e: AllocError) -> CodecFault {
        CodecFault::Memory
    }
}

impl<T: Drop> From<AllocFailed<T>> for CodecFault {
    ghost from_gives = { λ _ e. e ≡ Memory };

    fn from(_e: AllocFailed<T>) -> CodecFault {
        CodecFault::Memory
    }
}
