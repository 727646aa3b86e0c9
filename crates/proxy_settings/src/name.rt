//! Keys, as faults show them.

use std::fmt;

/// How much of a key is shown.
const SHOWN: usize = 40;

/// A key as a fault shows it, on one line and without allocating: its first bytes, with `?` for
/// what is not printable ASCII, and `..` for a rest that is cut off.
#[derive(Clone, Copy, Debug, PartialEq, Eq)]
pub struct Name {
    bytes: [u8; 40],
    len: usize,
}

impl Name {
    /// The name of a key.
    pub fn of(key: &str) -> Name {
        let mut bytes = [0; 40];
        for (shown, byte) in bytes.iter_mut().zip(key.as_bytes()) {
            *shown = if byte.is_ascii_graphic() { *byte } else { b'?' };
        }
        Name {
            bytes,
            len: key.len(),
        }
    }
}

impl fmt::Display for Name {
    fn fmt<W: fmt::Write>(&self, f: &mut fmt::Formatter<W>) -> fmt::Result {
        for byte in self.bytes.iter().take(self.len) {
            f.write_char(char::from(*byte))?;
        }
        if self.len > SHOWN {
            f.write_str("..")?;
        }
        Ok(())
    }
}
