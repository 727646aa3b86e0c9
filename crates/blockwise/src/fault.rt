//! Why a piece can't be joined to those before it.

ghost use Rattle.std.specs.Prelude.{◌≡◌};
ghost use Rattle.blockwise.specs.declared.fault.BlockFault.TheVariants.{Memory};

use std::alloc::{AllocError, AllocFailed};
use std::fmt;
use std::fmt::{Display, Formatter, Write};

/// Why a piece can't be joined to those before it: the first of these that holds.
#[derive(Clone, Copy, Debug, PartialEq, Eq)]
pub enum BlockFault {
    /// It is of another representation (RFC 7959, section 2.4). The caller may ask for the whole
    /// once more, with a new download; how often, it decides.
    Changed = 1,
    /// It isn't as long as its Block2 says, or its blocks are larger than those before it.
    Size = 2,
    /// It doesn't begin where the one before it ended.
    Gap = 3,
    /// The whole would be longer than 65,536 bytes.
    TooLarge = 4,
    /// Memory ran out.
    Memory = 5,
}

impl Display for BlockFault {
    fn fmt<W: Write>(&self, f: &mut Formatter<W>) -> fmt::Result {
        let text = match self {
            BlockFault::Changed => "the representation changed between two blocks",
            BlockFault::Size => "a block of another size than it says",
            BlockFault::Gap => "a block that doesn't follow the one before",
            BlockFault::TooLarge => "a representation of more than 65,536 bytes",
            BlockFault::Memory => "out of memory",
        };
        f.write_str(text)
    }
}

impl From<AllocError> for BlockFault {
    ghost from_gives = { λ _ e. e ≡ Memory };

    fn from(_e: AllocError) -> BlockFault {
        BlockFault::Memory
    }
}

impl<T: Drop> From<AllocFailed<T>> for BlockFault {
    ghost from_gives = { λ _ e. e ≡ Memory };

    fn from(_e: AllocFailed<T>) -> BlockFault {
        BlockFault::Memory
    }
}
