use std::fmt::{self, Display, Formatter, Write};

/// Why a bank gave no answer for a pair.
#[derive(Clone, Copy, PartialEq, Eq, Debug)]
pub enum ApplyFault {
    /// The transformer refused the content.
    Refused = 1,
    /// The output is above 65,536 bytes.
    TooLarge = 2,
    /// An allocation failed.
    Memory = 3,
}

impl Display for ApplyFault {
    fn fmt<W: Write>(&self, f: &mut Formatter<W>) -> fmt::Result {
        f.write_str(match self {
            ApplyFault::Refused => "content refused",
            ApplyFault::TooLarge => "output too large",
            ApplyFault::Memory => "out of memory",
        })
    }
}
