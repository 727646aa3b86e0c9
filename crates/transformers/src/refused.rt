use std::alloc::{AllocError, AllocFailed};
use std::convert::From;
use std::fmt::{self, Display, Formatter, Write};

/// Why a transformer gave no bytes.
#[derive(Clone, Copy, PartialEq, Eq, Debug)]
pub enum Refused {
    /// The input has no output: it isn't well formed, or outside of what the transformer takes.
    Content,
    /// An allocation failed.
    Memory,
}

impl From<AllocError> for Refused {
    ghost use Rattle.std.specs.Prelude.{◌≡◌};
    ghost use Rattle.transformers.specs.declared.refused.Refused.TheVariants.{Memory};

    ghost from_gives = { λ _ e. e ≡ Memory };

    fn from(_: AllocError) -> Refused {
        Refused::Memory
    }
}

impl<T: Drop> From<AllocFailed<T>> for Refused {
    ghost use Rattle.std.specs.Prelude.{◌≡◌};
    ghost use Rattle.transformers.specs.declared.refused.Refused.TheVariants.{Memory};

    ghost from_gives = { λ _ e. e ≡ Memory };

    fn from(_: AllocFailed<T>) -> Refused {
        Refused::Memory
    }
}

impl Display for Refused {
    fn fmt<W: Write>(&self, f: &mut Formatter<W>) -> fmt::Result {
        f.write_str(match self {
            Refused::Content => "content refused",
            Refused::Memory => "out of memory",
        })
    }
}
