//! Faults of media types.

ghost use Rattle.std.specs.Prelude.{◌≡◌};
ghost use Rattle.media_map.specs.declared.fault.MediaFault.TheVariants.{Memory};

use std::alloc::{AllocError, AllocFailed};
use std::fmt;

/// Why a media type isn't mapped.
#[derive(Clone, Copy, Debug, PartialEq, Eq)]
pub enum MediaFault {
    /// No content format stands for it.
    Unmapped = 1,
    /// It is `application/coap-payload`, which isn't passed through.
    PassThrough = 2,
    /// The text is no media type.
    Syntax = 3,
    /// Memory ran out.
    Memory = 4,
}

impl fmt::Display for MediaFault {
    ghost use Rattle.std.specs.Prelude.{Some};
    ghost use Rattle.media_map.specs.Faults.{message_of};

    ghost output = { λ fault. Some (message_of fault) };

    fn fmt<W: fmt::Write>(&self, f: &mut fmt::Formatter<W>) -> fmt::Result {
        f.write_str(match self {
            MediaFault::Unmapped => "no content format stands for the media type",
            MediaFault::PassThrough => "coap-payload isn't passed through",
            MediaFault::Syntax => "malformed media type",
            MediaFault::Memory => "out of memory",
        })
    }
}

impl From<AllocError> for MediaFault {
    ghost from_gives = { λ _ e. e ≡ Memory };

    fn from(_e: AllocError) -> MediaFault {
        MediaFault::Memory
    }
}

impl<T: Drop> From<AllocFailed<T>> for MediaFault {
    ghost from_gives = { λ _ e. e ≡ Memory };

    fn from(_e: AllocFailed<T>) -> MediaFault {
        MediaFault::Memory
    }
}
