//! Why a script isn't run to its end.

use crate::script::LineFault;
use crate::story::StoryFault;
use journal_picture::LineFault as JournalFault;
use std::alloc::{AllocError, AllocFailed};
use std::fmt;

/// Why a script isn't run to its end.
#[derive(Clone, Copy, Debug, PartialEq, Eq)]
pub enum ReplayFault {
    /// The line of that number, from 1, is no input, or its input is refused.
    Line(u64),
    /// A read or a write failed, or the script has no end.
    Device,
    /// Memory ran out.
    Memory,
}

impl fmt::Display for ReplayFault {
    fn fmt<W: fmt::Write>(&self, f: &mut fmt::Formatter<W>) -> fmt::Result {
        match self {
            ReplayFault::Line(number) => write!(f, "line {number} refused"),
            ReplayFault::Device => f.write_str("device failed"),
            ReplayFault::Memory => f.write_str("out of memory"),
        }
    }
}

/// What else can be said of a fault.
#[derive(Clone, Copy, PartialEq, Eq)]
pub enum Reason {
    /// The line is no input.
    Line(LineFault),
    /// The line is none of a story.
    Story(StoryFault),
    /// The script ends within the line.
    Unended,
    /// The line is none that a journal has, or not at that place.
    Journal(JournalFault),
    /// The line brings more bytes than may wait.
    Backlog,
    /// The line isn't UTF-8.
    NotText,
    /// The script can't be read.
    Input,
    /// What comes out can't be written.
    Output,
}

impl fmt::Display for Reason {
    fn fmt<W: fmt::Write>(&self, f: &mut fmt::Formatter<W>) -> fmt::Result {
        match self {
            Reason::Line(fault) => write!(f, "{fault}"),
            Reason::Story(fault) => write!(f, "{fault}"),
            Reason::Journal(fault) => write!(f, "{fault}"),
            Reason::NotText => f.write_str("the line isn't UTF-8"),
            Reason::Unended => f.write_str("the last line has no line end"),
            Reason::Backlog => {
                f.write_str("more than 1048576 bytes would wait unread on the connection")
            }
            Reason::Input => f.write_str("standard input can't be read to its end"),
            Reason::Output => f.write_str("standard output can't be written"),
        }
    }
}

impl From<AllocError> for ReplayFault {
    fn from(_e: AllocError) -> ReplayFault {
        ReplayFault::Memory
    }
}

impl<T: Drop> From<AllocFailed<T>> for ReplayFault {
    fn from(_e: AllocFailed<T>) -> ReplayFault {
        ReplayFault::Memory
    }
}
