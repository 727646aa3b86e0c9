//! Devices of a script that give little at a time, or fail.

use std::alloc::Global;
use std::io::{self, ErrorKind, Read, Write};

/// What goes wrong with the devices of a run.
#[derive(Clone, Copy, PartialEq, Eq)]
pub enum Trouble {
    None,
    /// The script can't be read to its end.
    Reading,
    /// No byte can be written.
    Writing,
}

/// A reader that gives a text in pieces of one byte and then fails, where it is to.
#[derive(Drop)]
pub struct Trickle<'a> {
    text: &'a [u8],
    fails: bool,
}

impl<'a> Trickle<'a> {
    pub fn new(text: &'a str, trouble: Trouble) -> Trickle<'a> {
        Trickle {
            text: text.as_bytes(),
            fails: trouble == Trouble::Reading,
        }
    }
}

impl Read for Trickle<'_> {
    fn read(&mut self, buf: &mut [u8]) -> io::Result<usize> {
        match (self.text, buf) {
            ([first, rest @ ..], [place, ..]) => {
                *place = *first;
                self.text = rest;
                Ok(1)
            }
            _ if self.fails => Err(io::Error::from(ErrorKind::Other)),
            _ => Ok(0),
        }
    }
}

/// A writer that keeps what is written, or takes no byte.
#[derive(Drop)]
pub struct Tape {
    pub bytes: Vec<u8>,
    fails: bool,
}

impl Tape {
    pub fn new(alloc: Global, trouble: Trouble) -> Tape {
        Tape {
            bytes: Vec::new(alloc),
            fails: trouble == Trouble::Writing,
        }
    }
}

impl Write for Tape {
    fn write(&mut self, buf: &[u8]) -> io::Result<usize> {
        if self.fails {
            return Err(io::Error::from(ErrorKind::StorageFull));
        }
        match self.bytes.extend_from_slice(buf) {
            Ok(()) => Ok(buf.len()),
            Err(_) => Err(io::Error::from(ErrorKind::OutOfMemory)),
        }
    }

    fn flush(&mut self) -> io::Result<()> {
        Ok(())
    }
}
